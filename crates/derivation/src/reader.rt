// The derivation's reader, which holds the text, its place in it and the number of the line that begins there.
ghost use Rattle.std.specs.Prelude.{◌≡◌, ◌≤◌, ◌<◌, ◌+◌, ◌^◌, ◌↔◌, length, IsTrue, IfSome, option_map};
ghost use Rattle.grammar.specs.Derivation.{read_line, read_version, read_grounder};
ghost use Rattle.text.specs.memory.Told.{Told, ToldEnd, read_to};
ghost use Rattle.derivation.specs.memory.RuleLines.{line_in, LineBefore, MovesOn, ToldAwaited};

use crate::rule_line::{Line, grounder_end, line_at, version_end};

// A line of the derivation, as its number says what is awaited there: the version, the grounder, then rule lines and the footer.
#[derive(Clone, Copy)]
pub enum Awaited {
    Version,
    Grounder,
    Line(Line),
}

// A reader of any place: that the place is within the text is asked where a line is read.
#[derive(Clone, Copy)]
pub struct Reader<'a> {
    pub text: &'a [u8],
    pub at: usize,
    pub line: usize,
    // each line takes a byte at least, whatever number of 32 bits the first has
    ghost counted: { line ≤ at + 2 ^ 32 },
}

impl<'a> Reader<'a> {
    // Where a text begins.
    pub fn new(text: &'a [u8]) -> Reader<'a>
        ensures { (result.text ≡ text.entry) × (result.at ≡ 0) × (result.line ≡ 1) }
    {
        Reader {
            text,
            at: 0,
            line: 1,
        }
    }

    // Of any place, under any number of a line.
    pub fn at(text: &'a [u8], at: usize, line: u32) -> Reader<'a>
        ensures { (result.text ≡ text.entry) × (result.at ≡ at) × (result.line ≡ line) }
    {
        Reader {
            text,
            at,
            line: line as usize,
        }
    }

    // Whether it stands at the end of the text.
    pub fn is_done(&self) -> bool
        ensures { IsTrue result ↔ (self.now.at ≡ length self.now.text.now) }
    {
        self.at == self.text.len()
    }

    // The line ends, and the next begins at a place behind.
    fn go_to(&mut self, next: usize)
        requires { (self.old.at < next) × (next ≤ length self.old.text.now) }
        ensures { (self.new.text ≡ self.old.text) × (self.new.at ≡ next) × (self.new.line ≡ self.old.line + 1) }
    {
        self.at = next;
        self.line += 1;
    }

    // The heading's first line; None: it is malformed, and the reader stays where it was.
    pub fn version(&mut self) -> Option<()>
        requires { self.old.at ≤ length self.old.text.now }
        ensures text { self.new.text ≡ self.old.text }
        ensures within { self.new.at ≤ length self.new.text.now }
        ensures read { ToldEnd 10 read_version self.old.text.now self.old.at (option_map (λ u. self.new.at) result) }
        ensures on { MovesOn result self.old.at self.new.at self.old.line self.new.line }
    {
        let next = version_end(self.text, self.at)?;
        self.go_to(next);
        Some(())
    }

    // The heading's second line, likewise.
    pub fn grounder(&mut self) -> Option<()>
        requires { self.old.at ≤ length self.old.text.now }
        ensures text { self.new.text ≡ self.old.text }
        ensures within { self.new.at ≤ length self.new.text.now }
        ensures read { ToldEnd 10 read_grounder self.old.text.now self.old.at (option_map (λ u. self.new.at) result) }
        ensures on { MovesOn result self.old.at self.new.at self.old.line self.new.line }
    {
        let next = grounder_end(self.text, self.at)?;
        self.go_to(next);
        Some(())
    }

    // A rule line or the footer, likewise.
    pub fn next_line(&mut self) -> Option<Line>
        requires { self.old.at ≤ length self.old.text.now }
        ensures text { self.new.text ≡ self.old.text }
        ensures within { self.new.at ≤ length self.new.text.now }
        ensures read { Told 10 read_line (line_in self.old.text.now) self.old.text.now self.old.at (option_map (read_to self.new.at) result) }
        ensures on { MovesOn result self.old.at self.new.at self.old.line self.new.line }
        ensures before { IfSome result (λ l. LineBefore l self.new.at) }
    {
        let read = line_at(self.text, self.at)?;
        self.go_to(read.next);
        Some(read.value)
    }

    // The line that is awaited under the number where it stands, likewise.
    pub fn awaited(&mut self) -> Option<Awaited>
        requires { self.old.at ≤ length self.old.text.now }
        ensures text { self.new.text ≡ self.old.text }
        ensures within { self.new.at ≤ length self.new.text.now }
        ensures read { ToldAwaited self.old.text.now self.old.at self.old.line result self.new.at }
        ensures on { MovesOn result self.old.at self.new.at self.old.line self.new.line }
    {
        match self.line {
            1 => {
                self.version()?;
                Some(Awaited::Version)
            }
            2 => {
                self.grounder()?;
                Some(Awaited::Grounder)
            }
            _ => {
                let line = self.next_line()?;
                Some(Awaited::Line(line))
            }
        }
    }
}
