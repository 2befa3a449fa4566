// Ground clauses printed, from their words.
ghost use Rattle.std.specs.Prelude.{◌≡◌, ◌≤◌, ◌<◌, length, get_or, drop};
ghost use Rattle.grammar.specs.Bytes.{joined};
ghost use Rattle.logic.specs.Text.{truth_text};
ghost use Rattle.text.specs.memory.Sizes.{InWork};
ghost use Rattle.printing.specs.memory.Cursor.{first_cursor, Prints, Writes};
ghost use Rattle.printing.specs.memory.ClauseText.{element_of, element_texts, atom_text, sign_opening, opening, closing, part_texts, clause_text, clause_lines};

use crate::cursor::{Cursor, Printer};
use table::table::Table;
use words::walk::past;
use words::word::{Kind, Sign, peek};

// By hand, as a number is (`Printer::number`); so are what stands before and behind parts.
fn truth_text(b: bool) -> &'static [u8]
    ensures { result.now ≡ truth_text b }
{
    if b { b"true" } else { b"false" }
}

// What stands before a connective's parts.
fn sign_opening(sign: Sign) -> &'static [u8]
    ensures { result.now ≡ sign_opening sign }
{
    match sign {
        Sign::Negation => b"~",
        Sign::Junction { every: false } => b"|(",
        _ => b"",
    }
}

// What stands behind a formula's parts.
fn closing(kind: Kind) -> &'static [u8]
    ensures { result.now ≡ closing kind }
{
    match kind {
        Kind::Connective {
            sign: Sign::Junction { every: false },
            ..
        } => b")",
        _ => b"",
    }
}

// Ground clauses by their words in memory, and the problem's text and table, which have the names of their predicates.
#[derive(Clone, Copy)]
pub struct Clauses<'a> {
    pub work: &'a [u32],
    pub problem: &'a [u8],
    pub table: &'a Table,
    ghost in_work: { InWork work.now },
}

impl Clauses<'_> {
    fn element(&self, at: usize) -> u32
        ensures { result ≡ element_of (get_or self.now.work.now at 0) }
    {
        peek(self.work, at) / 16 % 256
    }

    // Elements, with commas.
    // That the place is within memory stands at each function, since each call has another place: no field of the struct can hold it.
    fn print_elements(&self, at: usize, count: u32, printer: &mut Printer)
        requires { (at ≤ length self.now.work.now) × (count < 4) }
        ensures { Writes printer.old (joined 44 (element_texts count (drop at self.now.work.now))) printer.new }
    {
        if count == 0 {
            return;
        }
        printer.number(self.element(at));
        for i in 1..count {
            printer.byte(b',');
            printer.number(self.element(at + i as usize));
        }
    }

    // An atom, whose terms stand from a place on.
    fn print_atom(&self, at: usize, predicate: u32, count: u32, printer: &mut Printer)
        requires { (at ≤ length self.now.work.now) × (count < 4) }
        ensures { Writes printer.old (atom_text self.now.problem.now self.now.table.now predicate count (drop at self.now.work.now)) printer.new }
    {
        printer.bytes(self.table.name(self.problem, predicate));
        if count == 0 {
            return;
        }
        printer.byte(b'(');
        self.print_elements(at, count, printer);
        printer.byte(b')');
    }

    // What stands before a formula's parts, whose words stand from a place on.
    fn print_opening(&self, kind: Kind, at: usize, printer: &mut Printer)
        requires { at ≤ length self.now.work.now }
        ensures { Writes printer.old (opening self.now.problem.now self.now.table.now kind (drop at self.now.work.now)) printer.new }
    {
        match kind {
            Kind::Truth(b) => printer.bytes(truth_text(b)),
            Kind::Atom { predicate, terms } => self.print_atom(at, predicate, terms % 4, printer),
            Kind::Connective { sign, .. } => printer.bytes(sign_opening(sign)),
            _ => {}
        }
    }

    // The clause at a place.
    #[cycle(clause)]
    fn print_clause(&self, at: usize, levels: usize, printer: &mut Printer)
        requires { at ≤ length self.now.work.now }
        ensures { Writes printer.old (clause_text self.now.problem.now self.now.table.now levels (drop at self.now.work.now)) printer.new }
    {
        if levels == 0 || at >= self.work.len() {
            return;
        }
        let kind = Kind::from(self.work[at]);
        self.print_opening(kind, at + 1, printer);
        self.print_parts(at + 1, levels - 1, kind.subformula_count(), printer);
        printer.bytes(closing(kind));
    }

    // Clauses one after the other, with commas.
    #[cycle(clause)]
    fn print_parts(&self, at: usize, levels: usize, count: u32, printer: &mut Printer)
        requires { at ≤ length self.now.work.now }
        ensures { Writes printer.old (joined 44 (part_texts (clause_text self.now.problem.now self.now.table.now levels) count (drop at self.now.work.now))) printer.new }
    {
        if count == 0 {
            return;
        }
        self.print_clause(at, levels, printer);
        let mut place = past(self.work, at, 1);
        for _ in 1..count {
            printer.byte(b',');
            self.print_clause(place, levels, printer);
            place = past(self.work, place, 1);
        }
    }

    // Clauses one after the other, one a line.
    pub fn print_lines(&self, at: usize, levels: usize, count: u32, printer: &mut Printer)
        requires { at ≤ length self.now.work.now }
        ensures { Writes printer.old (clause_lines self.now.problem.now self.now.table.now levels count (drop at self.now.work.now)) printer.new }
    {
        let mut place = at;
        for _ in 0..count {
            self.print_clause(place, levels, printer);
            printer.byte(b'\n');
            place = past(self.work, place, 1);
        }
    }

    // The same lines as a whole text: counted, compared with a claim, and stored if asked. Why `store` is a flag beside the output is said at `Printer`.
    pub fn printed(
        &self,
        levels: usize,
        count: u32,
        claim: &[u8],
        store: bool,
        out: &mut [u8],
    ) -> Cursor
        ensures { Prints claim.now store (first_cursor, out.old) (clause_lines self.now.problem.now self.now.table.now levels count self.now.work.now) (result, out.new) }
    {
        let mut printer = Printer {
            claim,
            store,
            cursor: Cursor::start(),
            out,
        };
        self.print_lines(0, levels, count, &mut printer);
        printer.cursor
    }
}
