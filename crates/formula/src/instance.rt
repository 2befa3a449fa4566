// IQ in memory: the body of a quantifier is copied once for each element whose flag is set, with the element for the variable.
ghost use Rattle.std.specs.Prelude.{◌≡◌, [], cond, ◌+◌, ◌≤◌, ◌<◌, length, get_or};
ghost use Rattle.std.proofs.Math.Seq.{slice};
ghost use Rattle.text.specs.memory.Sizes.{FewElements};
ghost use Rattle.words.specs.memory.Storing.{Stores, Behind};
ghost use Rattle.words.specs.memory.Words.{Payload};
ghost use Rattle.formula.specs.memory.Instances.{word_with, held_after, words_with, copies, set_count, instantiated_words};

use words::head::junction_word;
use words::store::put;
use words::tag::Tag;
use words::walk::past;
use words::word::parts_of;

// The index stays a number with the clause `Payload x`: a struct around it would be taken apart where it is compared and where it is stored.
// A word with an element for a variable, where some formulas are still to be copied as they are.
#[tactic(auto, using(crate::proofs::memory::Instances::word_with_tested))]
fn word_with(x: u32, v: u32, held: usize, word: u32) -> u32
    requires { Payload x × (v < 256) }
    ensures { result ≡ word_with x v held word }
{
    if held == 0 && word == Tag::Variable.word(x) {
        Tag::Element.word(v)
    } else {
        word
    }
}

// How many formulas are to be copied as they are after a word.
#[tactic(auto, using(crate::proofs::memory::Instances::held_after_tested))]
fn held_after(x: u32, held: usize, word: u32) -> usize
    requires { Payload x × (held < 1000000000000000) }
    ensures { (result ≡ held_after x held word) × (result ≤ held + 4294967296) }
{
    if held > 0 {
        held - 1 + parts_of(word)
    } else if word == Tag::Every.word(x) || word == Tag::Any.word(x) {
        2
    } else {
        0
    }
}

// Copies a range with an element for a variable. `Behind`, and `at < end` where a word is read, stay clauses here and in the modules that
// store: each function makes a range of its own (a formula, its parts, its body), so a struct with the fact would be made anew each time.
fn instance(work: &mut [u32], at: usize, end: usize, x: u32, v: u32, to: usize) -> usize
    requires { Behind work.old at end to × Payload x × (v < 256) }
    ensures { Stores work.old to (words_with x v (slice at end work.old) 0) result work.new }
{
    let mut held: usize = 0;
    let mut j = to;
    for i in at..end {
        let word = work[i];
        j = put(work, j, word_with(x, v, held, word));
        held = held_after(x, held, word);
    }
    j
}

// The copies for all elements, in ascending order. How many flags there are stays a clause: a struct around the slice would only be unpacked.
fn instances(work: &mut [u32], at: usize, end: usize, x: u32, flags: &[bool], to: usize) -> usize
    requires { Behind work.old at end to × (to ≤ 1000000) × Payload x × FewElements (length flags.now) }
    ensures { Stores work.old to (copies flags.now x (slice at end work.old) 1) result work.new }
{
    let mut j = to;
    for (i, chosen) in flags.iter().enumerate() {
        if *chosen {
            j = instance(work, at, end, x, i as u32 + 1, j);
        }
    }
    j
}

// How many flags are set.
#[tactic(auto, using(crate::proofs::memory::Instances::set_count_by, crate::proofs::memory::Instances::set_count_few))]
fn set_count(flags: &[bool]) -> u32
    requires { FewElements (length flags.now) }
    ensures { (result ≡ set_count flags.now) × (result ≤ length flags.now) }
{
    flags.iter().filter(|set| **set).count() as u32
}

// What is made of the quantifier from `at` to `end`.
pub fn store_instantiated(
    work: &mut [u32],
    at: usize,
    end: usize,
    flags: &[bool],
    to: usize,
) -> usize
    requires { Behind work.old at end to × (at < end) × (to ≤ 100000) × FewElements (length flags.now) }
    ensures { Stores work.old to (instantiated_words (get_or work.old at 0) (slice (at + 1) end work.old) flags.now) result work.new }
{
    let word = work[at];
    let body = past(&work[..end], at + 1, 1);
    let count = set_count(flags);
    let next = put(work, to, junction_word(Tag::Every.is_of(word), count));
    instances(work, body, end, word / 16, flags, next)
}
