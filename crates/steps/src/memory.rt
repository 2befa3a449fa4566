// Working memory, in its parts, and the live formulas that it holds.
ghost use Rattle.std.specs.Prelude.{length};
ghost use Rattle.steps.specs.memory.Steps.{Arranged, Few};

use crate::live::{Layout, Live};

// Working memory, where its parts begin, and the live formulas in it: words and names in lent memory, as there is no heap.
#[derive(Drop)]
pub struct Memory<'a> {
    pub work: &'a mut [u32],
    pub layout: Layout,
    pub live: Live,
    ghost arranged: { Arranged layout (length work.now) },
    ghost few: { Few live },
}
