// The memory that is lent to a job: what stands in it before, and what is left in it.
ghost use Rattle.std.specs.Prelude.{◌≤◌, length};

use std::io::Result;

// What is lent: bytes of an output, numbers of working memory.
pub trait Lent: Copy + PartialEq {
    // What stands at a place before a job: nothing that a job leaves.
    fn before(i: usize) -> Self;

    // Whether a job may leave it at the beginning.
    fn is_left(self) -> bool;
}

// No ground text has a byte from 128 on.
impl Lent for u8 {
    fn before(i: usize) -> u8 {
        128 + (i % 100) as u8
    }

    fn is_left(self) -> bool {
        self < 128
    }
}

// Working memory is cleared.
impl Lent for u32 {
    fn before(i: usize) -> u32 {
        1 + (i % 65536) as u32
    }

    fn is_left(self) -> bool {
        self == 0
    }
}

pub fn fill<T: Lent>(lent: &mut [T]) {
    for i in 0..lent.len() {
        lent[i] = T::before(i);
    }
}

// How many at the beginning a job left.
pub fn left<T: Lent>(lent: &[T]) -> usize
    ensures { result ≤ length lent.now }
{
    lent.iter().position(|x| !x.is_left()).unwrap_or(lent.len())
}

// The first place, from a place on, that is not as it was before.
fn spoiled<T: Lent>(lent: &[T], from: usize) -> Option<usize> {
    (from..lent.len()).find(|i| lent[*i] != T::before(*i))
}

// How many were left at the beginning, and the first place behind them that was not kept.
pub fn say<T: Lent>(rt: &impl Print, word: &str, lent: &[T]) -> Result<()> {
    let size = left(lent);
    print!(rt; " {word}={size}")?;
    match spoiled(lent, size) {
        Some(place) => print!(rt; " spoiled={place}"),
        None => Ok(()),
    }
}
