// The first words of formulas: a truth value's, a connective's with the number of its parts, a quantifier's with its variable's index.
ghost use Rattle.std.specs.Prelude.{◌≡◌, ◌+◌, ◌*◌};
ghost use Rattle.logic.specs.Formula.{junction};
ghost use Rattle.words.specs.memory.Tags.{tag_number};
ghost use Rattle.words.specs.memory.Stored.{side_of, connective_of};
ghost use Rattle.words.specs.memory.Words.{Payload, truth_word, connective_tag, quantifier_tag};

use crate::tag::Tag;
use crate::word::Sign;

// The word of a truth value. It is said by the tags: u32::from gives the same numbers, but not why, so it is no plainer.
pub fn truth_word(value: bool) -> u32
    ensures { result ≡ truth_word value }
{
    if value {
        Tag::True.word(0)
    } else {
        Tag::False.word(0)
    }
}

impl Sign {
    // Private and used once: an `impl From` would be public and need a law of its own, and be no plainer.
    fn tag(self) -> Tag
        ensures { tag_number result ≡ connective_tag (connective_of self) }
    {
        match self {
            Sign::Negation => Tag::Negation,
            Sign::Implies => Tag::Implies,
            Sign::ImpliedBy => Tag::ImpliedBy,
            Sign::Equivalent => Tag::Equivalent,
            Sign::Junction { every: true } => Tag::Conjunction,
            Sign::Junction { every: false } => Tag::Disjunction,
        }
    }
}

pub fn connective_word(sign: Sign, parts: u32) -> u32
    requires { Payload parts }
    ensures { result ≡ parts * 16 + connective_tag (connective_of sign) }
{
    sign.tag().word(parts)
}

// The word of an `&`, if every part counts, or of an `|`.
pub fn junction_word(every: bool, parts: u32) -> u32
    requires { Payload parts }
    ensures { result ≡ parts * 16 + connective_tag (junction (side_of every)) }
{
    connective_word(Sign::Junction { every }, parts)
}

pub fn quantifier_word(every: bool, variable: u32) -> u32
    requires { Payload variable }
    ensures { result ≡ variable * 16 + quantifier_tag (side_of every) }
{
    if every {
        Tag::Every.word(variable)
    } else {
        Tag::Any.word(variable)
    }
}
