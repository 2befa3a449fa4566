// A rule at a place of memory: what was decided of the formula is done, and the next theory is stored behind the theory.
ghost use Rattle.std.specs.Prelude.{◌+◌, ◌≤◌, ◌<◌, length, get_or};
ghost use Rattle.std.proofs.Math.Seq.{slice};
ghost use Rattle.text.specs.memory.Sizes.{FewElements};
ghost use Rattle.words.specs.memory.Storing.{Stores, Behind, Rewritten};
ghost use Rattle.formula.specs.memory.Rewriting.{Standing, end_within, fit_words, rewritten_words};

use crate::decide::Fit;
use crate::instance::store_instantiated;
use crate::simplify::store_simplified;
use words::head::truth_word;
use words::store::{copy, put};
use words::walk::past;

// What was decided of the formula from `at` to `end`; the flags are those of the elements, for IQ. A formula that no rule fits is copied. Flags
// stand beside what fits: of the rules one alone has them, and its definition takes them apart.
fn store_decided(
    work: &mut [u32],
    at: usize,
    end: usize,
    fit: Option<Fit>,
    flags: &[bool],
    to: usize,
) -> usize
    requires { Behind work.old at end to × (at < end) × (to ≤ 100000) × FewElements (length flags.now) }
    ensures { Stores work.old to (fit_words fit (get_or work.old at 0) (slice (at + 1) end work.old) flags.now) result work.new }
{
    match fit {
        Some(Fit::Value(b)) => put(work, to, truth_word(b)),
        Some(Fit::Junction { every }) => store_simplified(work, at, end, every, to),
        Some(Fit::Quantifier) => store_instantiated(work, at, end, flags, to),
        None => copy(work, at, end, to),
    }
}

// The theory up to `full` with the rule done on the formula at `at`.
pub fn rewrite(
    work: &mut [u32],
    at: usize,
    full: usize,
    to: usize,
    fit: Option<Fit>,
    flags: &[bool],
) -> usize
    requires { Standing work.old at full to × FewElements (length flags.now) }
    ensures { Rewritten work.old at (end_within work.old at full) full to (rewritten_words fit work.old at full flags.now) result work.new }
{
    let end = past(&work[..full], at, 1);
    let place = copy(work, 0, at, to);
    let next = store_decided(work, at, end, fit, flags, place);
    copy(work, end, full, next) - to
}
