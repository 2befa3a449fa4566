// Places of formulas in memory: after whole formulas, one level down, and along a path.
ghost use Rattle.std.specs.Prelude.{◌≡◌, ◌+◌, ◌≤◌, ◌<◌, length, drop};
ghost use Rattle.text.specs.memory.Numbers.{numbers_at};
ghost use Rattle.words.specs.memory.Kinds.{skip};
ghost use Rattle.words.specs.memory.Paths.{place_below, place_of, Within};

use crate::word::{Kind, parts_of, peek};
use text::number::Numbers;

// The place after some formulas. Each function here asks that a place is within memory; a type of memory with a place in it would be made
// anew at each step, which is no plainer.
#[tactic(auto, using(crate::proofs::memory::Kinds::skips))]
pub fn past(work: &[u32], at: usize, count: usize) -> usize
    requires { at ≤ length work.now }
    ensures { (result ≡ at + skip (drop at work.now) count) × (result ≤ length work.now) }
{
    let mut pending = count;
    for i in at..work.len() {
        if pending == 0 {
            return i;
        }
        pending = (pending - 1).saturating_add(parts_of(work[i]));
    }
    work.len()
}

// One level down: a part of a connective from 0; of a quantifier 0 for the guard, 1 for the body.
#[tactic(auto, unfolding(crate::specs::memory::Paths::place_below), using(crate::proofs::memory::Paths::below_inside))]
fn down(work: &[u32], at: usize, part: u32) -> Option<usize>
    requires { at ≤ length work.now }
    ensures { (result ≡ place_below work.now at part) × Within (length work.now) result }
{
    if part < Kind::from(peek(work, at)).subformula_count() {
        return Some(past(work, at + 1, part as usize));
    }
    None
}

// Along a path, whose numbers stand in a text: where a formula stands, if there is one.
#[tactic(auto, unfolding(crate::specs::memory::Paths::place_of))]
pub fn walk(work: &[u32], at: usize, text: &[u8], path: Numbers) -> Option<usize>
    requires { at ≤ length work.now }
    ensures { (result ≡ place_of work.now (numbers_at text.now path.at path.many) at) × Within (length work.now) result }
{
    let mut place = at;
    for part in path.of(text) {
        place = down(work, place, part)?;
    }
    Some(place)
}
