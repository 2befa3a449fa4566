// Whole runs. A file of runs/ sets the four texts and the sizes of what is lent, each behind a line `# problem`, `# output 100` and so
// on, and has check or replay run on what is set by a line `# check NAME`. What is not set again stays as it was.
ghost use Rattle.std.specs.Prelude.{◌≤◌, length};

use crate::lent;
use casefile::texts::{Section, Sections};
use casefile::written;
use demands::answer::Answer;
use std::io::Result;
use std::rt::Files;
use text::number::digits_at;

// More than the largest text that is allowed.
const ROOM: usize = 65600;

const WORK: usize = 16400;

// A text that is set, in room of its own, as there is no heap.
#[derive(Drop)]
struct Text {
    room: [u8; ROOM],
    size: usize,
    ghost within: { size ≤ length room },
}

impl Text {
    fn new() -> Text {
        Text {
            room: [0; ROOM],
            size: 0,
        }
    }

    fn set(&mut self, section: Section) {
        self.size = written::text(section.source, section.size, &mut self.room);
    }

    fn bytes(&self) -> &[u8] {
        &self.room[..self.size]
    }
}

// The four texts, and how much is lent.
#[derive(Drop)]
struct Setting {
    problem: Text,
    theory: Text,
    derivation: Text,
    claim: Text,
    output: usize,
    work: usize,
}

impl Setting {
    // Room for the texts, made once for all files, as it takes long to clear; nothing is lent yet.
    fn new() -> Setting {
        Setting {
            problem: Text::new(),
            theory: Text::new(),
            derivation: Text::new(),
            claim: Text::new(),
            output: 0,
            work: 0,
        }
    }

    // How much is lent, where a file does not say; no texts.
    fn begin(&mut self) {
        self.problem.size = 0;
        self.theory.size = 0;
        self.derivation.size = 0;
        self.claim.size = 0;
        self.output = 2000;
        self.work = WORK;
    }
}

#[derive(Clone, Copy)]
enum Job {
    Check,
    Replay,
}

// What a line of the file asks for. An enum and no closure: what is read of a line can't hand one out.
#[derive(Clone, Copy)]
enum Command {
    Problem,
    Theory,
    Derivation,
    Claim,
    Output,
    Work,
    Run(Job),
}

fn text_command(line: &[u8]) -> Option<Command> {
    if line.starts_with(b"problem") {
        Some(Command::Problem)
    } else if line.starts_with(b"theory") {
        Some(Command::Theory)
    } else if line.starts_with(b"derivation") {
        Some(Command::Derivation)
    } else if line.starts_with(b"claim") {
        Some(Command::Claim)
    } else {
        None
    }
}

fn command_of(line: &[u8]) -> Option<Command> {
    if line.starts_with(b"check ") {
        Some(Command::Run(Job::Check))
    } else if line.starts_with(b"replay ") {
        Some(Command::Run(Job::Replay))
    } else if line.starts_with(b"output ") {
        Some(Command::Output)
    } else if line.starts_with(b"work ") {
        Some(Command::Work)
    } else {
        text_command(line)
    }
}

// Output and memory are lent side by side, as to the jobs.
fn answer(job: Job, setting: &Setting, output: &mut [u8], work: &mut [u32]) -> Answer {
    let problem = setting.problem.bytes();
    let theory = setting.theory.bytes();
    let derivation = setting.derivation.bytes();
    let claim = setting.claim.bytes();
    // A `match`, and no closure: the jobs take different texts, and the file names them.
    match job {
        Job::Check => replay::job::check(problem, theory, derivation, claim, output, work),
        Job::Replay => replay::job::replay(problem, theory, derivation, output, work),
    }
}

fn say_answer(rt: &impl Print, line: &[u8], answer: Answer) -> Result<()> {
    let Answer {
        number,
        file,
        line: at,
        rules,
        formulas,
    } = answer;
    rt.write_all(line)?;
    print!(rt; ": number={number} file={file} line={at} rules={rules} formulas={formulas}")
}

// Runs a job on what is set, with as much lent as is set: all, where there is no more.
fn run(
    rt: &impl Print,
    line: &[u8],
    job: Job,
    setting: &Setting,
    output: &mut [u8],
    work: &mut [u32],
) -> Result<()> {
    let bytes = setting.output.min(output.len());
    let numbers = setting.work.min(work.len());
    let output = &mut output[..bytes];
    let work = &mut work[..numbers];
    lent::fill(output);
    lent::fill(work);
    say_answer(rt, line, answer(job, setting, output, work))?;
    lent::say(rt, "output", output)?;
    lent::say(rt, "work", work)?;
    rt.write_all(b"\n")?;
    rt.write_all(&output[..lent::left(output)])
}

// What a line of the file sets or runs.
fn one(
    rt: &impl Print,
    section: Section,
    setting: &mut Setting,
    output: &mut [u8],
    work: &mut [u32],
) -> Result<()> {
    let line = section.name;
    match command_of(line) {
        Some(Command::Problem) => setting.problem.set(section),
        Some(Command::Theory) => setting.theory.set(section),
        Some(Command::Derivation) => setting.derivation.set(section),
        Some(Command::Claim) => setting.claim.set(section),
        Some(Command::Output) => setting.output = digits_at(line, 7).value as usize,
        Some(Command::Work) => setting.work = digits_at(line, 5).value as usize,
        Some(Command::Run(job)) => return run(rt, line, job, setting, output, work),
        None => return rt.write_all(b"unknown command\n"),
    }
    Ok(())
}

fn file(
    rt: &(impl Files + Print),
    path: &[u8],
    setting: &mut Setting,
    output: &mut [u8],
    work: &mut [u32],
) -> Result<()> {
    let mut room = io::large_buffer();
    setting.begin();
    for section in Sections::of(casefile::load(rt, path, &mut room)) {
        one(rt, section, setting, output, work)?;
    }
    Ok(())
}

// Each file that a list names, one on a line.
pub fn all(rt: &(impl Files + Print)) -> Result<()> {
    let mut room = io::buffer();
    let mut setting = Setting::new();
    let mut output = io::large_buffer();
    let mut work = [0; WORK];
    let list = casefile::load(rt, b"runs/list", &mut room);
    for line in list.split_inclusive(|b| *b == b'\n') {
        let path = line.strip_suffix(b"\n").unwrap_or(line);
        file(rt, path, &mut setting, &mut output, &mut work)?;
    }
    Ok(())
}
