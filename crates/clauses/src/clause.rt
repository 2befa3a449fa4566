// Whether a ground clause stands at a place: an atom of an output predicate with elements only, one such negated, or `|` of one or more clauses.
#![tactic(auto, using(crate::proofs::memory::Clauses::told))]

ghost use Rattle.std.specs.Prelude.{◌≡◌, ◌≤◌, ◌<◌, ◌&&◌, length, drop};
ghost use Rattle.text.specs.memory.Sizes.{InWork};
ghost use Rattle.words.specs.memory.Kinds.{elements_at};
ghost use Rattle.clauses.specs.memory.Clauses.{is_output_index, ground_atom_at, all_at, connective_clause_at, clause_at};

use table::table::Table;
use words::walk::past;
use words::word::{Kind, Sign, are_elements, peek};

fn is_output(table: &Table, predicate: u32) -> bool
    ensures { result ≡ is_output_index table.now predicate }
{
    table.inputs <= predicate && predicate < table.count
}

// Formulas, by their words in memory, and the table of their predicates.
#[derive(Clone, Copy)]
pub struct Formulas<'a> {
    pub work: &'a [u32],
    pub table: &'a Table,
    ghost in_work: { InWork work.now },
}

impl Formulas<'_> {
    // Whether an atom, whose terms stand from a place on, is ground.
    fn is_ground(&self, at: usize, predicate: u32, count: u32) -> bool
        requires { (at ≤ 16385) × (count < 4) }
        ensures { result ≡ (is_output_index self.now.table.now predicate && elements_at count (drop at self.now.work.now)) }
    {
        is_output(self.table, predicate) && are_elements(self.work, at, count)
    }

    fn is_ground_atom(&self, at: usize) -> bool
        requires { at ≤ 16384 }
        ensures { result ≡ ground_atom_at self.now.table.now (drop at self.now.work.now) }
    {
        match Kind::from(peek(self.work, at)) {
            Kind::Atom { predicate, terms } => self.is_ground(at + 1, predicate, terms % 4),
            _ => false,
        }
    }

    // Whether the formula at a place is a ground clause.
    // That the place is within memory stands at each function, since each call has another place: no field of the struct can hold it.
    #[cycle(clause)]
    fn is_clause(&self, at: usize, levels: usize) -> bool
        requires { at ≤ length self.now.work.now }
        ensures { result ≡ clause_at self.now.table.now levels (drop at self.now.work.now) }
    {
        if levels == 0 || at >= self.work.len() {
            return false;
        }
        let next = at + 1;
        match Kind::from(self.work[at]) {
            Kind::Atom { predicate, terms } => self.is_ground(next, predicate, terms % 4),
            Kind::Connective { sign, parts } => {
                self.is_connective_clause(next, levels - 1, sign, parts)
            }
            _ => false,
        }
    }

    // Whether a connective, whose parts stand from a place on, is a ground clause.
    #[cycle(clause)]
    fn is_connective_clause(&self, at: usize, levels: usize, sign: Sign, count: u32) -> bool
        requires { at ≤ length self.now.work.now }
        ensures { result ≡ connective_clause_at self.now.table.now (clause_at self.now.table.now levels) sign count (drop at self.now.work.now) }
    {
        match sign {
            Sign::Negation => count == 1 && self.is_ground_atom(at),
            Sign::Junction { every: false } => count != 0 && self.are_clauses(at, levels, count),
            _ => false,
        }
    }

    // Whether so many formulas, one after the other, are ground clauses.
    #[cycle(clause)]
    pub fn are_clauses(&self, at: usize, levels: usize, count: u32) -> bool
        requires { at ≤ length self.now.work.now }
        ensures { result ≡ all_at (clause_at self.now.table.now levels) count (drop at self.now.work.now) }
    {
        let mut place = at;
        for _ in 0..count {
            if !self.is_clause(place, levels) {
                return false;
            }
            place = past(self.work, place, 1);
        }
        true
    }
}
