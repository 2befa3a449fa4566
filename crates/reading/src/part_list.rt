// How the parts of a connective are listed and closed: `~` has one, `=>`, `<=` and `<=>` have two and a bracket behind them, `&` and `|` none, one
// or more and a bracket.
ghost use Rattle.std.specs.Prelude.{◌≡◌, ◌≤◌, length, drop};
ghost use Rattle.words.specs.memory.Stored.{connective_of};
ghost use Rattle.reading.specs.memory.PartReads.{none_follow, further_parts, another_follows, parts_close, close_size};

use text::byte::peek;
use words::word::Sign;

// Whether no part follows: the bracket stands behind `&(` or `|(` at once.
pub fn none_follow(text: &[u8], at: usize, sign: Sign) -> bool
    ensures { result ≡ none_follow (connective_of sign) (drop at text.now) }
{
    match sign {
        Sign::Junction { .. } => peek(text, at) == b')',
        _ => false,
    }
}

// How many parts may follow the first: as many as there are bytes, behind `&(` or `|(`.
pub fn further_parts(text: &[u8], sign: Sign) -> usize
    ensures { result ≡ further_parts (connective_of sign) (length text.now) }
{
    match sign {
        Sign::Negation => 0,
        Sign::Junction { .. } => text.len(),
        _ => 1,
    }
}

// Whether another part follows one, where there may be so many more.
pub fn another_follows(text: &[u8], at: usize, more: usize) -> bool
    ensures { result ≡ another_follows more (drop at text.now) }
{
    more != 0 && peek(text, at) == b','
}

// Whether so many parts of a connective are closed.
pub fn parts_close(text: &[u8], at: usize, sign: Sign, count: usize) -> bool
    ensures { result ≡ parts_close (connective_of sign) count (drop at text.now) }
{
    match sign {
        Sign::Negation => count == 1,
        Sign::Junction { .. } => peek(text, at) == b')',
        _ => count == 2 && peek(text, at) == b')',
    }
}

// How many bytes close them.
pub fn close_size(sign: Sign) -> usize
    ensures { (result ≡ close_size (connective_of sign)) × (result ≤ 1) }
{
    match sign {
        Sign::Negation => 0,
        _ => 1,
    }
}
