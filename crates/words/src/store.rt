// Words stored in lent memory, in which the theory stands at the front and the next theory is made behind it.
ghost use Rattle.std.specs.Prelude.{[], ◌∷◌, ◌+◌, ◌<◌};
ghost use Rattle.std.proofs.Math.Seq.{slice};
ghost use Rattle.words.specs.memory.Storing.{Stores, Copyable, Placed, Rewritten};

use text::cell;

// Stores a word, where there is room, and tells the place after it.
pub fn put(work: &mut [u32], to: usize, word: u32) -> usize
    requires { to < 18446744073709551615 }
    ensures { Stores work.old to (word ∷ []) result work.new }
{
    cell::set(work, to, word);
    to + 1
}

// Copies a range to another place, as far as there is room, and tells the place after it.
pub fn copy(work: &mut [u32], at: usize, end: usize, to: usize) -> usize
    requires { Copyable work.old at end to }
    ensures { Stores work.old to (slice at end work.old) result work.new }
{
    let size = end - at;
    if to < work.len() {
        let room = size.min(work.len() - to);
        work.copy_within(at..at + room, to);
    }
    to + size
}

// The theory without one of its words.
pub fn without_word(work: &mut [u32], at: usize, full: usize, to: usize) -> usize
    requires { Placed work.old at (at + 1) full to }
    ensures { Rewritten work.old at (at + 1) full to [] result work.new }
{
    let next = copy(work, 0, at, to);
    copy(work, at + 1, full, next) - to
}
