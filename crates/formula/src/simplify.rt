// SNAND and SNOR in memory: a part that decides the value takes the connective's place; otherwise the parts that change nothing are dropped.
ghost use Rattle.std.specs.Prelude.{◌≡◌, [], cond, ◌+◌, ◌/◌, ◌≤◌, ◌<◌, length, get_or, drop};
ghost use Rattle.std.proofs.Math.Seq.{slice};
ghost use Rattle.text.specs.memory.Sizes.{InWork};
ghost use Rattle.words.specs.memory.Storing.{Stores, Behind};
ghost use Rattle.formula.specs.memory.Simplified.{truth_count, words_without, simplification, simplified_words, Fewer};

use words::head::{junction_word, truth_word};
use words::store::{copy, put};
use words::walk::past;
use words::word::peek;

// What is left of a connective: a truth value, or so many parts.
#[derive(Clone, Copy)]
pub enum Simplified {
    Value(bool),
    Parts(u32),
}

// How many of the formulas at a place are a truth value.
fn truth_count(work: &[u32], at: usize, count: u32, value: bool) -> u32
    requires { (at ≤ length work.now) × InWork work.now }
    ensures { (result ≡ truth_count value count (drop at work.now)) × (result ≤ count) }
{
    let sought = truth_word(value);
    let mut i = at;
    let mut found: u32 = 0;
    for _part in 0..count {
        if peek(work, i) == sought {
            found += 1;
        }
        i = past(work, i, 1);
    }
    found
}

// What is left of the connective of some parts at a place.
#[tactic(auto, unfolding(crate::specs::memory::Simplified::simplification))]
fn simplification_at(work: &[u32], at: usize, parts: u32, every: bool) -> Simplified
    requires { (at ≤ length work.now) × InWork work.now }
    ensures { (result ≡ simplification every parts (drop at work.now)) × Fewer parts result }
{
    if truth_count(work, at, parts, !every) > 0 {
        return Simplified::Value(!every);
    }
    let stay = parts - truth_count(work, at, parts, every);
    if stay == 0 {
        return Simplified::Value(every);
    }
    Simplified::Parts(stay)
}

// Copies the formulas of a range but for those that are a truth value.
fn copy_others(work: &mut [u32], at: usize, end: usize, count: u32, value: bool, to: usize) -> usize
    requires { Behind work.old at end to × (to ≤ 1000001) }
    ensures { Stores work.old to (words_without value count (slice at end work.old)) result work.new }
{
    let unwanted = truth_word(value);
    let mut i = at;
    let mut j = to;
    for _part in 0..count {
        let next = past(&work[..end], i, 1);
        if peek(&work[..end], i) != unwanted {
            j = copy(work, i, next, j);
        }
        i = next;
    }
    j
}

// What is made of the `&` or `|` from `at` to `end`.
pub fn store_simplified(work: &mut [u32], at: usize, end: usize, every: bool, to: usize) -> usize
    requires { Behind work.old at end to × (at < end) × (to ≤ 1000000) }
    ensures { Stores work.old to (simplified_words every (get_or work.old at 0 / 16) (slice (at + 1) end work.old)) result work.new }
{
    let parts = work[at] / 16;
    match simplification_at(&work[..end], at + 1, parts, every) {
        Simplified::Value(b) => put(work, to, truth_word(b)),
        Simplified::Parts(count) => {
            let next = put(work, to, junction_word(every, count));
            copy_others(work, at + 1, end, parts, every, next)
        }
    }
}
