// Numbers: read at a place, of any number of digits, and written.
ghost use Rattle.std.specs.Prelude.{◌≡◌, true, ◌+◌, ◌-◌, ◌*◌, ◌≤◌, ◌<◌, min, length};
ghost use Rattle.grammar.specs.Bytes.{is_digit};
ghost use Rattle.grammar.specs.Numbers.{is_number};
ghost use Rattle.text.specs.memory.Numbers.{beyond, digits_at, number_end, DigitsTold, ToldNumber};

use crate::byte::{is_digit, peek};
use crate::read::Read;

// Larger than every number that is asked for: numbers from here on are not told apart.
const BEYOND: u32 = 1000000;

// Numbers that stand in a text one after the other: the place of the first, and how many there are.
#[derive(Clone, Copy)]
pub struct Numbers {
    pub at: usize,
    pub many: usize,
}

// A value with one more digit behind it.
fn with_digit(value: u32, digit: u8) -> u32
    requires { (value ≤ beyond) × (is_digit digit ≡ true) }
    ensures { result ≡ min (value * 10 + (digit - 48)) beyond }
{
    BEYOND.min(value * 10 + u32::from(digit - b'0'))
}

// The digits at a place, and their value as far as it matters: none, where no digit stands there.
pub fn digits_at(text: &[u8], at: usize) -> Read<u32>
    ensures { DigitsTold text.now at result }
{
    let mut value = 0;
    for i in at..text.len() {
        if !is_digit(text[i]) {
            return Read { value, next: i };
        }
        value = with_digit(value, text[i]);
    }
    Read {
        value,
        next: at.max(text.len()),
    }
}

// Whether the digits from one place to another are a number.
fn well_spelled(text: &[u8], at: usize, next: usize) -> bool
    requires { next ≡ number_end text.now at }
    ensures { result ≡ is_number (digits_at text.now at) }
{
    at < next && (next - at == 1 || peek(text, at) != b'0')
}

// The number at a place, if one stands there; without its value, if that is beyond those that matter.
pub fn number_at(text: &[u8], at: usize) -> Option<Read<Option<u32>>>
    requires { at ≤ length text.now }
    ensures { ToldNumber text.now at result }
{
    let Read { value, next } = digits_at(text, at);
    if !well_spelled(text, at, next) {
        return None;
    }
    Some(Read {
        value: (value < BEYOND).then_some(value),
        next,
    })
}
