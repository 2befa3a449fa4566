// How a formula of the theory's text opens.
ghost use Rattle.std.specs.Prelude.{◌≡◌, ◌≤◌, length, drop};
ghost use Rattle.reading.specs.memory.Openings.{opening_among, opening_of};

use text::byte::begins_at;
use text::read::Read;
use words::word::Sign;

// The sign of a formula with formulas in it.
#[derive(Clone, Copy)]
pub enum Opening {
    Connective(Sign),
    Quantifier { every: bool },
}

// Each sign, with the word that it is written with.
const OPENINGS: [(&[u8], Opening); 8] = [
    (b"~", Opening::Connective(Sign::Negation)),
    (b"!", Opening::Quantifier { every: true }),
    (b"?", Opening::Quantifier { every: false }),
    (b"&(", Opening::Connective(Sign::Junction { every: true })),
    (b"|(", Opening::Connective(Sign::Junction { every: false })),
    (b"=>(", Opening::Connective(Sign::Implies)),
    (b"<=(", Opening::Connective(Sign::ImpliedBy)),
    (b"<=>(", Opening::Connective(Sign::Equivalent)),
];

// The first of some signs whose word stands at a place: told by what a formula opens with. `kind_among` of derivation lines is told by the reader
// `one_of`; one function for both would need a law from the first to the second, and its two callers besides, and be no plainer.
fn opening_among(text: &[u8], at: usize, openings: &[(&[u8], Opening)]) -> Option<Read<Opening>>
    requires { at ≤ length text.now }
    ensures { result ≡ opening_among at (drop at text.now) openings.now }
{
    for (word, opening) in openings {
        if begins_at(text, at, word) {
            return Some(Read {
                value: *opening,
                next: at + word.len(),
            });
        }
    }
    None
}

// The sign that the formula at a place opens with, and the place behind it; none, if the formula has no formula in it.
#[tactic(auto, unfolding(crate::specs::memory::Openings::opening_of, crate::specs::memory::Openings::bracket_opening))]
pub fn opening_at(text: &[u8], at: usize) -> Option<Read<Opening>>
    requires { at ≤ length text.now }
    ensures { result ≡ opening_of at (drop at text.now) }
{
    opening_among(text, at, &OPENINGS)
}
