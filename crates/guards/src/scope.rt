// Whether every variable is bound, but for those of some flags.
#![tactic(auto, using(crate::proofs::memory::Flags::told))]

ghost use Rattle.std.specs.Prelude.{◌≡◌, ◌≤◌, length, drop};
ghost use Rattle.logic.specs.Names.{term_closed};
ghost use Rattle.text.specs.memory.Sizes.{InWork};
ghost use Rattle.words.specs.memory.Stored.{index_name, term_of};
ghost use Rattle.guards.specs.memory.Flags.{flagged, terms_closed_at, closed_at, all_closed_at};

use crate::variable::{index, with};
use text::size::VARIABLE_COUNT;
use words::tag::Tag;
use words::walk::past;
use words::word::{Kind, peek};

// Formulas in memory, and a flag for each variable: whether it is bound.
#[derive(Clone, Copy)]
pub struct Scope<'a> {
    pub work: &'a [u32],
    pub flags: [bool; VARIABLE_COUNT],
    ghost in_work: { InWork work.now },
}

impl Scope<'_> {
    fn is_term_closed(&self, word: u32) -> bool
        ensures { result ≡ term_closed (flagged self.now.flags) (term_of index_name word) }
    {
        Tag::Element.is_of(word) || self.flags[index(word / 16)]
    }

    fn are_terms_closed(&self, at: usize, count: u32) -> bool
        requires { (at ≤ length self.now.work.now) × (count ≤ 4) }
        ensures { result ≡ terms_closed_at self.now.flags count (drop at self.now.work.now) }
    {
        for i in 0..count {
            if !self.is_term_closed(peek(self.work, at + i as usize)) {
                return false;
            }
        }
        true
    }

    // Whether each variable of the formula at a place is flagged or bound on the way to it.
    #[cycle(closed)]
    pub fn is_closed(&self, at: usize, levels: usize) -> bool
        requires { at ≤ length self.now.work.now }
        ensures { result ≡ closed_at levels self.now.flags (drop at self.now.work.now) }
    {
        if levels == 0 || at >= self.work.len() {
            return true;
        }
        let next = at + 1;
        match Kind::from(self.work[at]) {
            Kind::Atom { terms, .. } => self.are_terms_closed(next, terms % 4),
            Kind::Equality => self.are_terms_closed(next, 2),
            Kind::Connective { parts, .. } => self.are_closed(next, levels - 1, parts),
            Kind::Quantifier { variable, .. } => {
                let inner = Scope {
                    work: self.work,
                    flags: with(self.flags, variable, true),
                };
                inner.are_closed(next, levels - 1, 2)
            }
            _ => true,
        }
    }

    // Whether so many formulas are closed, one after the other. `are_clauses` of crate clauses is the same loop over another test; one function for both
    // would be no plainer: each test leads back to its own loop, so it would be a closure that calls the function that it is passed to.
    #[cycle(closed)]
    fn are_closed(&self, at: usize, levels: usize, count: u32) -> bool
        requires { at ≤ length self.now.work.now }
        ensures { result ≡ all_closed_at levels self.now.flags count (drop at self.now.work.now) }
    {
        let mut place = at;
        for _ in 0..count {
            if !self.is_closed(place, levels) {
                return false;
            }
            place = past(self.work, place, 1);
        }
        true
    }
}
