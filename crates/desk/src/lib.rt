// Reads the four files of a job, checks the derivation and prints the answer.
#![tactic(auto)]

mod input;
mod say;

use input::Texts;
use std::io::Result;
use std::rt::Files;

// Room for a text, and a byte more: a text that takes that too is too long, and the check says so.
const ROOM: usize = 65537;

const WORK: usize = 16384;

fn check_texts(rt: &impl Print, texts: Texts) -> Result<()> {
    let mut output = io::large_buffer();
    let mut work = [0; WORK];
    let answer = replay::job::check(
        texts.problem,
        texts.theory,
        texts.derivation,
        texts.claim,
        &mut output,
        &mut work,
    );
    say::answer(rt, answer)
}

// The files at four paths: all are read before any is judged, so that an unread one wins over every number.
pub fn check_files(
    rt: &(impl Files + Print),
    problem: &[u8],
    theory: &[u8],
    derivation: &[u8],
    claim: &[u8],
) -> Result<()> {
    let mut problem_room = [0; ROOM];
    let mut theory_room = [0; ROOM];
    let mut derivation_room = [0; ROOM];
    let mut claim_room = [0; ROOM];
    let problem = files::load(rt, problem, &mut problem_room).ok();
    let theory = files::load(rt, theory, &mut theory_room).ok();
    let derivation = files::load(rt, derivation, &mut derivation_room).ok();
    let claim = files::load(rt, claim, &mut claim_room).ok();
    match Texts::all(problem, theory, derivation, claim) {
        Ok(texts) => check_texts(rt, texts),
        Err(file) => say::unread(rt, file),
    }
}
