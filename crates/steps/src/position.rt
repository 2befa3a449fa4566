// The position of a rule line, in the text where its path stands.
use derivation::rule_line::Position;

// A position, and the text in which the numbers of its path stand.
#[derive(Clone, Copy)]
pub struct TextPosition<'a> {
    pub text: &'a [u8],
    pub position: Position,
}
