// Words of memory: a formula is one word for each unit of its size, each formula before its parts.
ghost use Rattle.std.specs.Prelude.{◌≡◌, ◌≤◌, ◌<◌, get_or, drop};
ghost use Rattle.words.specs.memory.Kinds.{kind_of, part_count, elements_at};
ghost use Rattle.words.specs.memory.Paths.{subformula_count};

use crate::tag::Tag;

// Which connective.
#[derive(Clone, Copy)]
pub enum Sign {
    Negation,
    Implies,
    ImpliedBy,
    Equivalent,
    // `&` if every part counts, `|` if any does.
    Junction { every: bool },
}

// The kind of what a word starts: a formula, or a term.
#[derive(Clone, Copy)]
pub enum Kind {
    Truth(bool),
    Atom { predicate: u32, terms: u32 },
    Equality,
    Connective { sign: Sign, parts: u32 },
    Quantifier { every: bool, variable: u32 },
    Term,
}

impl From<u32> for Kind {
    ghost from_gives = { λ word kind. kind ≡ kind_of word };

    #[tactic(auto, unfolding(crate::specs::memory::Kinds::kind_by))]
    fn from(word: u32) -> Kind {
        let payload = word / 16;
        let connective = |sign| Kind::Connective {
            sign,
            parts: payload,
        };
        let quantifier = |every| Kind::Quantifier {
            every,
            variable: payload,
        };
        match Tag::of(word) {
            Some(Tag::False) => Kind::Truth(false),
            Some(Tag::True) => Kind::Truth(true),
            Some(Tag::Negation) => connective(Sign::Negation),
            Some(Tag::Conjunction) => connective(Sign::Junction { every: true }),
            Some(Tag::Disjunction) => connective(Sign::Junction { every: false }),
            Some(Tag::Implies) => connective(Sign::Implies),
            Some(Tag::ImpliedBy) => connective(Sign::ImpliedBy),
            Some(Tag::Equivalent) => connective(Sign::Equivalent),
            Some(Tag::Every) => quantifier(true),
            Some(Tag::Any) => quantifier(false),
            Some(Tag::Atom) => Kind::Atom {
                predicate: payload % 256,
                terms: payload / 256,
            },
            Some(Tag::Equality) => Kind::Equality,
            Some(Tag::Element | Tag::Variable) | None => Kind::Term,
        }
    }
}

impl Kind {
    // How many formulas a path can go on to from a formula of the kind.
    pub fn subformula_count(self) -> u32
        ensures { result ≡ subformula_count self }
    {
        match self {
            Kind::Connective { parts, .. } => parts,
            Kind::Quantifier { .. } => 2,
            _ => 0,
        }
    }
}

// How many formulas or terms follow a word as its parts. By tests of its tag and not by its kind: each word that is passed is asked, and to branch by
// fourteen tags takes a quarter more time where formulas are deep.
#[tactic(auto, unfolding(crate::specs::memory::Kinds::kind_by))]
pub fn parts_of(word: u32) -> usize
    ensures { (result ≡ part_count (kind_of word)) × (result < 4294967296) }
{
    let payload = word / 16;
    let parts = if Tag::Negation.is_of(word)
        || Tag::Conjunction.is_of(word)
        || Tag::Disjunction.is_of(word)
        || Tag::Implies.is_of(word)
        || Tag::ImpliedBy.is_of(word)
        || Tag::Equivalent.is_of(word)
    {
        payload
    } else if Tag::Equality.is_of(word) || Tag::Every.is_of(word) || Tag::Any.is_of(word) {
        2
    } else if Tag::Atom.is_of(word) {
        payload / 256
    } else {
        0
    };
    parts as usize
}

// The word at a place; 0 past the end, since contracts over words are total. As one generic function with the `peek` of bytes it would take at
// each call what stands past the end.
pub fn peek(work: &[u32], at: usize) -> u32
    ensures { result ≡ get_or work.now at 0 }
{
    work.get(at).copied().unwrap_or(0)
}

// Whether so many terms, one after the other, are elements.
#[tactic(auto, using(crate::proofs::memory::Kinds::elements))]
pub fn are_elements(work: &[u32], at: usize, count: u32) -> bool
    requires { (at ≤ 16385) × (count ≤ 4) }
    ensures { result ≡ elements_at count (drop at work.now) }
{
    for i in at..at + count as usize {
        if !Tag::Element.is_of(peek(work, i)) {
            return false;
        }
    }
    true
}
