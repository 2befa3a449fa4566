// Bytes at a place of a text: their classes, runs of a class, and words.
ghost use Rattle.std.specs.Prelude.{◌≡◌, ◌+◌, ◌≤◌, length, take_while, drop};
ghost use Rattle.grammar.specs.Bytes.{next, span, begins, is_digit, is_capital, is_small, is_printable};
ghost use Rattle.text.specs.memory.Classes.{in_class};

// A class of bytes. An enum and no closure: a contract can say which class a run is of, and a closure would need one to say it.
#[derive(Clone, Copy)]
pub enum Class {
    Digit,
    SmallOrDigit,
    LetterOrDigit,
    Printable,
}

// The byte at a place; 0 at the end, as the statement's reader has it.
pub fn peek(text: &[u8], at: usize) -> u8
    ensures { result ≡ next (drop at text.now) }
{
    text.get(at).copied().unwrap_or(0)
}

// By ranges, as the statement classes each byte; so are the next two, and the printable bytes.
pub fn is_digit(b: u8) -> bool
    ensures { result ≡ is_digit b }
{
    matches!(b, b'0'..=b'9')
}

pub fn is_capital(b: u8) -> bool
    ensures { result ≡ is_capital b }
{
    matches!(b, b'A'..=b'Z')
}

pub fn is_small(b: u8) -> bool
    ensures { result ≡ is_small b }
{
    matches!(b, b'a'..=b'z')
}

impl Class {
    // Whether a byte is of the class.
    fn has(self, b: u8) -> bool
        ensures { result ≡ in_class self b }
    {
        match self {
            Class::Digit => is_digit(b),
            Class::SmallOrDigit => is_small(b) || is_digit(b),
            Class::LetterOrDigit => is_capital(b) || is_small(b) || is_digit(b),
            Class::Printable => matches!(b, b'!'..=b'~'),
        }
    }
}

// How many bytes of a class stand at the front.
fn run_size(rest: &[u8], class: Class) -> usize
    ensures { result ≡ length (take_while (in_class class) rest.now) }
{
    rest.iter().take_while(|b| class.has(**b)).count()
}

// The place after the longest run of bytes of a class.
pub fn run_end(text: &[u8], at: usize, class: Class) -> usize
    requires { at ≤ length text.now }
    ensures { (result ≡ at + length (span (in_class class) (drop at text.now))) × (result ≤ length text.now) }
{
    at + run_size(&text[at..], class)
}

// Whether a word stands at a place.
pub fn begins_at(text: &[u8], at: usize, word: &[u8]) -> bool
    requires { at ≤ length text.now }
    ensures { result ≡ begins word.now (drop at text.now) }
{
    text[at..].starts_with(word)
}
