// The tags of words: a word is 16 times its payload, which is a count, an index or an element, and the tag that tells its kind.
ghost use Rattle.std.specs.Prelude.{◌≡◌, ◌+◌, ◌*◌, ◌%◌, ◌≤◌, eqb, MatchOption};
ghost use Rattle.words.specs.memory.Tags.{tag_number};
ghost use Rattle.words.specs.memory.Words.{Payload};

#[derive(Clone, Copy)]
pub enum Tag {
    False = 0,
    True = 1,
    Negation = 2,
    Conjunction = 3,
    Disjunction = 4,
    Implies = 5,
    ImpliedBy = 6,
    Equivalent = 7,
    Every = 8,
    Any = 9,
    Atom = 10,
    Equality = 11,
    Element = 12,
    Variable = 13,
}

impl Tag {
    // The tag of a word, if it has one. An Option and no `TryFrom`: there is no error to tell.
    pub fn of(word: u32) -> Option<Tag>
        ensures { MatchOption result (14 ≤ word % 16) (λ tag. word % 16 ≡ tag_number tag) }
    {
        match word % 16 {
            0 => Some(Tag::False),
            1 => Some(Tag::True),
            2 => Some(Tag::Negation),
            3 => Some(Tag::Conjunction),
            4 => Some(Tag::Disjunction),
            5 => Some(Tag::Implies),
            6 => Some(Tag::ImpliedBy),
            7 => Some(Tag::Equivalent),
            8 => Some(Tag::Every),
            9 => Some(Tag::Any),
            10 => Some(Tag::Atom),
            11 => Some(Tag::Equality),
            12 => Some(Tag::Element),
            13 => Some(Tag::Variable),
            _ => None,
        }
    }

    // Whether it is the tag of a word.
    pub fn is_of(self, word: u32) -> bool
        ensures { result ≡ eqb (word % 16) (tag_number self) }
    {
        word % 16 == self as u32
    }

    // The word of a tag and a payload. It is made of two values: From, which takes one, would take a pair, which is no plainer.
    pub fn word(self, payload: u32) -> u32
        requires { Payload payload }
        ensures { result ≡ payload * 16 + tag_number self }
    {
        payload * 16 + self as u32
    }
}
