// Names: parts of a text, compared byte by byte.
ghost use Rattle.std.specs.Prelude.{◌≡◌, take, drop};
ghost use Rattle.grammar.specs.Bytes.{same};

// A name, by its place in a text.
#[derive(Clone, Copy)]
pub struct Name {
    pub start: u32,
    pub size: u32,
}

impl Name {
    // Its bytes, as far as they stand in the text.
    pub fn of(self, text: &[u8]) -> &[u8]
        ensures { result.now ≡ take self.size (drop self.start text.now) }
    {
        part(text, self.start as usize, self.size as usize)
    }
}

// What stands in a list from a place on, as much as is asked for and stands there.
pub fn part<T>(list: &[T], at: usize, size: usize) -> &[T]
    ensures { result.now ≡ take size (drop at list.now) }
{
    let rest = list.get(at..).unwrap_or(&[]);
    rest.get(..size).unwrap_or(rest)
}

// Whether two names have the same bytes; `==`, told in the statement's words.
pub fn equal(a: &[u8], b: &[u8]) -> bool
    ensures { result ≡ same a.now b.now }
{
    a == b
}
