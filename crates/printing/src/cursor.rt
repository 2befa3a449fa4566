// Printing with a cursor: each byte is counted, compared with a claim, and stored only if asked.
ghost use Rattle.std.specs.Prelude.{◌≡◌, [], ◌∷◌, cond, set};
ghost use Rattle.grammar.specs.Numbers.{decimal};
ghost use Rattle.printing.specs.memory.Cursor.{counted, agrees_after, cursor_after, first_cursor, Writes};

use text::cell::set;

// Larger than every text: from here on bytes and lines are not counted.
const COUNTLESS: usize = 1000000000;

// How many bytes there are so far, whether the claim has the same, and one more than the LFs before the first difference or the end so far.
#[derive(Clone, Copy)]
pub struct Cursor {
    pub length: usize,
    pub same: bool,
    pub line: u32,
}

fn more(n: usize) -> usize
    ensures { result ≡ counted n }
{
    n.min(COUNTLESS - 1) + 1
}

impl Cursor {
    // Before the first byte.
    pub fn start() -> Cursor
        ensures { result ≡ first_cursor }
    {
        Cursor {
            length: 0,
            same: true,
            line: 1,
        }
    }

    // Whether all is the same, with one byte more.
    #[tactic(auto, using(crate::proofs::memory::Cursor::first_here), unfolding(crate::specs::memory::Cursor::agrees_after))]
    fn agrees(self, claim: &[u8], b: u8) -> bool
        ensures { result ≡ agrees_after claim.now self b }
    {
        self.same && claim.get(self.length).copied() == Some(b)
    }

    // Behind one byte more.
    #[tactic(auto, unfolding(crate::specs::memory::Cursor::cursor_after, crate::specs::memory::Cursor::line_after))]
    fn after(self, claim: &[u8], b: u8) -> Cursor
        ensures { result ≡ cursor_after claim.now self b }
    {
        let same = self.agrees(claim, b);
        Cursor {
            length: more(self.length),
            same,
            line: if same && b == b'\n' {
                more(self.line as usize) as u32
            } else {
                self.line
            },
        }
    }
}

// A byte is stored if asked and where there is room. Why `store` is a flag beside the output is said at `Printer`.
fn put_if(store: bool, out: &mut [u8], at: usize, b: u8)
    ensures { out.new ≡ cond store (set out.old at b) out.old }
{
    if store {
        set(out, at, b);
    }
}

// Where a text is printed: what it is compared with, whether it is stored, how far it is, and where it is stored. The output is here even where
// nothing is stored (so there is a flag, and no Option of it), since contracts say what it holds then, too.
#[derive(Drop)]
pub struct Printer<'a> {
    pub claim: &'a [u8],
    pub store: bool,
    pub cursor: Cursor,
    pub out: &'a mut [u8],
}

impl Printer<'_> {
    // One byte more.
    pub fn byte(&mut self, b: u8)
        ensures { Writes self.old (b ∷ []) self.new }
    {
        put_if(self.store, self.out, self.cursor.length, b);
        self.cursor = self.cursor.after(self.claim, b);
    }

    // All the bytes of a slice.
    pub fn bytes(&mut self, bytes: &[u8])
        ensures { Writes self.old bytes.now self.new }
    {
        for b in bytes {
            self.byte(*b);
        }
    }

    // The digits of a number. By hand: of `write!` the bytes are promised for a String alone, and here memory is lent, with no heap.
    pub fn number(&mut self, n: u32)
        ensures { Writes self.old (decimal n) self.new }
    {
        if n < 10 {
            self.byte(b'0' + n as u8);
        } else {
            self.number(n / 10);
            self.byte(b'0' + (n % 10) as u8);
        }
    }
}
