// Lines: where one ends, where one begins, and the refused line.
ghost use Rattle.std.specs.Prelude.{◌≡◌, ◌+◌, ◌≤◌, length, take_while, drop, not};
ghost use Rattle.grammar.specs.Lines.{is_lf, line_size, lines_size};
ghost use Rattle.grammar.specs.HandedBack.{HandedBack};

// How many bytes stand before the next LF, or the end.
fn line_size(rest: &[u8]) -> usize
    ensures { result ≡ length (take_while (λ b. not (is_lf b)) rest.now) }
{
    rest.iter().take_while(|b| **b != b'\n').count()
}

// The place of the next LF, or the end.
pub fn line_end(text: &[u8], at: usize) -> usize
    requires { at ≤ length text.now }
    ensures { (result ≡ at + line_size (drop at text.now)) × (result ≤ length text.now) }
{
    at + line_size(&text[at..])
}

// Where the first lines end, with their LFs; the end, where there are no more.
fn lines_end(text: &[u8], lines: usize) -> usize
    ensures { (result ≡ lines_size text.now lines) × (result ≤ length text.now) }
{
    let mut left = lines;
    for (i, b) in text.iter().enumerate() {
        if left == 0 {
            return i;
        }
        if *b == b'\n' {
            left -= 1;
        }
    }
    text.len()
}

// The refused line, counted from 1: that part of the text, without its LF; the empty part at the end, where there is no such line.
pub fn refused_line(text: &[u8], line: usize) -> &[u8]
    ensures { HandedBack text.entry line result }
{
    if line == 0 {
        let end = text.len();
        return &text[end..end];
    }
    let from = lines_end(text, line - 1);
    let to = line_end(text, from);
    &text[from..to]
}
