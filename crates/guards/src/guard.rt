// Guards: the value of the formula at a place, in the input structure. Parts are taken from the left until one settles the value.
ghost use Rattle.std.specs.Prelude.{◌≡◌, ◌∷◌, [], false, ◌+◌, ◌*◌, ◌%◌, ◌≤◌, ◌<◌, eqb, length, drop, get_or};
ghost use Rattle.logic.specs.Meaning.{value_of, values_of, connect, join_all};
ghost use Rattle.text.specs.memory.Sizes.{InWork};
ghost use Rattle.table.specs.memory.Table.{packed};
ghost use Rattle.words.specs.memory.Stored.{index_name, side_of, connective_of, term_of, terms_at};
ghost use Rattle.guards.specs.memory.Values.{valued, settled_first, atom_at, true_at, truths_at, element_at, each_at};

use crate::variable::{index, with};
use table::structure::Structure;
use text::size::VARIABLE_COUNT;
use words::tag::Tag;
use words::walk::past;
use words::word::{Kind, Sign, peek};

// The element that a term's word stands for.
fn value_of(word: u32, values: [u8; VARIABLE_COUNT]) -> u32
    ensures value { result ≡ value_of (valued values) (term_of index_name word) }
    ensures low { result < 256 }
{
    if Tag::Element.is_of(word) {
        word / 16 % 256
    } else {
        values[index(word / 16)] as u32
    }
}

// Whether the first part's value settles a connective of one part or two.
fn first_settles(sign: Sign, first: bool) -> bool
    ensures { result ≡ settled_first sign first }
{
    match sign {
        Sign::Negation => true,
        Sign::Implies => !first,
        Sign::ImpliedBy => first,
        Sign::Equivalent | Sign::Junction { .. } => false,
    }
}

// A connective's value from two parts' values.
fn connected(sign: Sign, first: bool, second: bool) -> bool
    ensures { result ≡ connect (connective_of sign) (first ∷ second ∷ []) }
{
    match sign {
        Sign::Negation => !first,
        Sign::Implies => !first || second,
        Sign::ImpliedBy => first || !second,
        Sign::Equivalent => first == second,
        Sign::Junction { every: true } => first && second,
        Sign::Junction { every: false } => first || second,
    }
}

// Formulas in memory, and the structure in which they have their values.
#[derive(Clone, Copy)]
pub struct Guards<'a> {
    pub work: &'a [u32],
    pub structure: &'a Structure<'a>,
    ghost in_work: { InWork work.now },
}

impl Guards<'_> {
    // The number of the row that terms stand for.
    // That the place is within bounds stands at each function, since each call has another place: no field of the struct can hold it.
    fn row_of(&self, at: usize, terms: u32, values: [u8; VARIABLE_COUNT]) -> u32
        requires { at ≤ 16384 }
        ensures { result ≡ packed (values_of (valued values) (terms_at index_name (terms % 4) (drop at self.now.work.now))) }
    {
        let first = value_of(peek(self.work, at), values);
        let second = value_of(peek(self.work, at + 1), values);
        let third = value_of(peek(self.work, at + 2), values);
        match terms % 4 {
            0 => 0,
            1 => first,
            2 => first + 256 * second,
            _ => first + 256 * (second + 256 * third),
        }
    }

    #[tactic(auto, unfolding(crate::specs::memory::Values::atom_at))]
    fn atom_holds(
        &self,
        at: usize,
        predicate: u32,
        terms: u32,
        values: [u8; VARIABLE_COUNT],
    ) -> bool
        requires { at ≤ 16384 }
        ensures { result ≡ atom_at self.now.structure.now.table.now self.now.structure.now.rows.now values predicate terms (drop at self.now.work.now) }
    {
        let row = self.row_of(at, terms, values);
        self.structure.holds(predicate % 32, row)
    }

    // Whether two terms stand for the same element.
    fn equal_holds(&self, at: usize, values: [u8; VARIABLE_COUNT]) -> bool
        requires { at ≤ 16384 }
        ensures { result ≡ eqb (value_of (valued values) (term_of index_name (get_or self.now.work.now at 0))) (value_of (valued values) (term_of index_name (get_or self.now.work.now (at + 1) 0))) }
    {
        value_of(peek(self.work, at), values) == value_of(peek(self.work, at + 1), values)
    }

    // The value of the formula at a place. Levels and values change from call to call as the place does.
    // That the place is within memory stands at each function, since each call has another place: no field of the struct can hold it.
    #[tactic(auto, using(crate::proofs::memory::Values::kinds_told))]
    #[cycle(value)]
    pub fn evaluate(&self, at: usize, levels: usize, values: [u8; VARIABLE_COUNT]) -> bool
        requires { at ≤ length self.now.work.now }
        ensures { result ≡ true_at self.now.structure.now.table.now self.now.structure.now.rows.now levels values (drop at self.now.work.now) }
    {
        if levels == 0 || at >= self.work.len() {
            return false;
        }
        let next = at + 1;
        match Kind::from(self.work[at]) {
            Kind::Truth(b) => b,
            Kind::Atom { predicate, terms } => self.atom_holds(next, predicate, terms, values),
            Kind::Equality => self.equal_holds(next, values),
            Kind::Connective { sign, parts } => {
                self.connective_holds(next, levels - 1, sign, parts, values)
            }
            Kind::Quantifier { every, variable } => {
                self.each_holds(next, levels - 1, every, variable, values)
            }
            Kind::Term => false,
        }
    }

    // A connective of the parts at a place.
    #[cycle(value)]
    fn connective_holds(
        &self,
        at: usize,
        levels: usize,
        sign: Sign,
        parts: u32,
        values: [u8; VARIABLE_COUNT],
    ) -> bool
        requires { at ≤ length self.now.work.now }
        ensures { result ≡ connect (connective_of sign) (truths_at self.now.structure.now.table.now self.now.structure.now.rows.now levels values parts (drop at self.now.work.now)) }
    {
        match sign {
            Sign::Junction { every } => self.parts_hold(at, levels, every, parts, values),
            _ => self.pair_holds(at, levels, sign, parts, values),
        }
    }

    // A connective that goes by the first two parts.
    #[cycle(value)]
    fn pair_holds(
        &self,
        at: usize,
        levels: usize,
        sign: Sign,
        parts: u32,
        values: [u8; VARIABLE_COUNT],
    ) -> bool
        requires { at ≤ length self.now.work.now }
        ensures { result ≡ connect (connective_of sign) (get_or (truths_at self.now.structure.now.table.now self.now.structure.now.rows.now levels values parts (drop at self.now.work.now)) 0 false ∷ get_or (truths_at self.now.structure.now.table.now self.now.structure.now.rows.now levels values parts (drop at self.now.work.now)) 1 false ∷ []) }
    {
        let first = self.part_holds(at, levels, 0, parts, values);
        let second = !first_settles(sign, first) && self.part_holds(at, levels, 1, parts, values);
        connected(sign, first, second)
    }

    // One of the parts at a place; false, where there are not so many.
    #[tactic(auto, using(crate::proofs::memory::Values::part_told))]
    #[cycle(value)]
    fn part_holds(
        &self,
        at: usize,
        levels: usize,
        i: u32,
        parts: u32,
        values: [u8; VARIABLE_COUNT],
    ) -> bool
        requires { at ≤ length self.now.work.now }
        ensures { result ≡ get_or (truths_at self.now.structure.now.table.now self.now.structure.now.rows.now levels values parts (drop at self.now.work.now)) i false }
    {
        i < parts && self.evaluate(past(self.work, at, i as usize), levels, values)
    }

    // `&` or `|` of the parts at a place: a part settles `&` if it is false, `|` if it is true.
    #[tactic(auto, using(crate::proofs::memory::Values::parts_told))]
    #[cycle(value)]
    fn parts_hold(
        &self,
        at: usize,
        levels: usize,
        every: bool,
        parts: u32,
        values: [u8; VARIABLE_COUNT],
    ) -> bool
        requires { at ≤ length self.now.work.now }
        ensures { result ≡ join_all (side_of every) (truths_at self.now.structure.now.table.now self.now.structure.now.rows.now levels values parts (drop at self.now.work.now)) }
    {
        let mut place = at;
        for _ in 0..parts {
            let part = self.evaluate(place, levels, values);
            if part != every {
                return part;
            }
            place = past(self.work, place, 1);
        }
        every
    }

    // A quantifier over the guard and the body at a place: elements in turn.
    #[tactic(auto, using(crate::proofs::memory::Values::each_told))]
    #[cycle(value)]
    fn each_holds(
        &self,
        at: usize,
        levels: usize,
        every: bool,
        variable: u32,
        values: [u8; VARIABLE_COUNT],
    ) -> bool
        requires { at ≤ length self.now.work.now }
        ensures { result ≡ each_at self.now.structure.now.table.now self.now.structure.now.rows.now levels values every variable (drop at self.now.work.now) 1 self.now.structure.now.table.now.domain }
    {
        for v in 1..=self.structure.table.domain {
            let inner = with(values, variable, v as u8);
            let part = self.element_holds(at, levels, every, inner);
            if part != every {
                return part;
            }
        }
        every
    }

    // One element: the body where the guard holds, and what changes nothing where it does not.
    #[tactic(auto, using(crate::proofs::memory::Values::element_told))]
    #[cycle(value)]
    fn element_holds(
        &self,
        at: usize,
        levels: usize,
        every: bool,
        values: [u8; VARIABLE_COUNT],
    ) -> bool
        requires { at ≤ length self.now.work.now }
        ensures { result ≡ element_at self.now.structure.now.table.now self.now.structure.now.rows.now levels values every (drop at self.now.work.now) }
    {
        if self.evaluate(at, levels, values) {
            self.evaluate(past(self.work, at, 1), levels, values)
        } else {
            every
        }
    }
}
