// The texts of a file of data/: each stands behind a line `# name`, or `#- name` where its last LF is left out.
ghost use Rattle.std.specs.Prelude.{◌≡◌, ℕ, ◌≤◌, ◌<◌, length, drop, MatchOption};
ghost use Rattle.std.specs.Iterator.{at_most};

use text::line::line_end;

// A text of a file: its name, its own bytes, and the file from its first byte on, of which `size` bytes are its lines: an escape at the
// text's end may read on behind it.
#[derive(Clone, Copy)]
pub struct Section<'a> {
    pub name: &'a [u8],
    pub text: &'a [u8],
    pub source: &'a [u8],
    pub size: usize,
}

// The texts of a file, one after the other: what is left of it.
#[derive(Drop)]
pub struct Sections<'a> {
    rest: &'a [u8],
}

// The place after the line at a place: behind its LF, or the end.
pub fn after_line(file: &[u8], at: usize) -> usize
    requires { at < length file.now }
    ensures { (at < result) × (result ≤ length file.now) }
{
    file.len().min(line_end(file, at) + 1)
}

// What is left from the next heading on.
fn from_heading(lines: &[u8]) -> &[u8]
    ensures { (n : ℕ) × (n ≤ length lines.now) × (result.now ≡ drop n lines.now) }
{
    let mut rest = lines;
    // A `while`: each turn takes a whole line off, and what is left is the answer.
    while !rest.is_empty() && rest[0] != b'#' {
        rest = &rest[after_line(rest, 0)..];
    }
    rest
}

impl<'a> Sections<'a> {
    // The texts of a file from its beginning on, where a heading stands.
    pub fn of(file: &'a [u8]) -> Sections<'a>
        ensures { result.rest.now ≡ file.now }
    {
        Sections { rest: file }
    }
}

impl<'a> Iterator for Sections<'a> {
    type Item = Section<'a>;

    // No text comes exactly where nothing is left, and then nothing is left after it; a text leaves what stands from a later place on.
    ghost next_gives = { λ s r t. MatchOption r ((length s.rest.now ≡ 0) × (t ≡ s))
        (λ _. (n : ℕ) × (0 < n) × (n ≤ length s.rest.now) × (t.rest.now ≡ drop n s.rest.now)) };

    ghost remaining = { λ s. at_most (length s.rest.now) };

    fn next(&mut self) -> Option<Section<'a>> {
        let file = self.rest;
        if file.is_empty() {
            return None;
        }
        let cut = usize::from(file.get(1) == Some(&b'-'));
        let heading = &file[..line_end(file, 0)];
        let source = &file[after_line(file, 0)..];
        self.rest = from_heading(source);
        let size = source.len() - self.rest.len();
        Some(Section {
            name: heading.get(2 + cut..).unwrap_or(&[]),
            text: &source[..size.saturating_sub(cut)],
            source,
            size,
        })
    }
}
