// The end of a line.
ghost use Rattle.std.specs.Prelude.{◌≤◌, length};
ghost use Rattle.grammar.specs.Bytes.{bytes};
ghost use Rattle.grammar.specs.Reading.{word};
ghost use Rattle.text.specs.memory.Told.{ToldEnd};

use text::byte::peek;

// The place behind a line's LF, if one stands there. Of one byte and under the problem's number; the derivation's words are its own.
pub fn line_closed(text: &[u8], at: usize) -> Option<usize>
    requires { at ≤ length text.now }
    ensures { ToldEnd 3 (word 3 (bytes "\n")) text.now at result }
{
    if peek(text, at) == b'\n' {
        Some(at + 1)
    } else {
        None
    }
}
