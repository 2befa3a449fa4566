// The next theory's words, made behind the theory's and brought to the front.
ghost use Rattle.std.specs.Prelude.{◌+◌, ◌<◌, [], length};
ghost use Rattle.text.specs.memory.Sizes.{FewElements};
ghost use Rattle.words.specs.memory.Storing.{spliced, Roomy, Fronted};
ghost use Rattle.formula.specs.memory.Rewriting.{end_within, rewritten_words};

use formula::decide::Fit;
use formula::rewrite::rewrite;
use words::store::{copy, without_word};

// What was decided is done on the formula at `at`. A theory of more words than there is room for stays behind: a size and no Option, since the
// caller judges it by the statement's limit. The places that range and room begin at change from call to call.
pub fn front_rewritten(
    words: &mut [u32],
    at: usize,
    full: usize,
    next: usize,
    fit: Option<Fit>,
    flags: &[bool],
) -> usize
    requires { Roomy words.old at full next × FewElements (length flags.now) }
    ensures { Fronted (spliced words.old at (end_within words.old at full) full (rewritten_words fit words.old at full flags.now)) next result words.new }
{
    let total = rewrite(words, at, full, next, fit, flags);
    if total > next {
        return total;
    }
    copy(words, next, next + total, 0);
    total
}

// One word is dropped. What this shares with the function above is the copy alone; a closure for the rest would repeat the contract.
pub fn front_without(words: &mut [u32], at: usize, full: usize, next: usize) -> usize
    requires { Roomy words.old at full next }
    ensures { Fronted (spliced words.old at (at + 1) full []) next result words.new × (result < full) }
{
    let total = without_word(words, at, full, next);
    copy(words, next, next + total, 0);
    total
}
