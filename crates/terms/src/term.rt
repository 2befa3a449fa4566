// Terms of the theory's text, read into words and judged on the way.
ghost use Rattle.std.specs.Prelude.{◌≡◌, ◌&&◌, ◌||◌, ◌+◌, ◌-◌, ◌≤◌, length};
ghost use Rattle.grammar.specs.Bytes.{bytes, same};
ghost use Rattle.grammar.specs.Problem.{read_name, is_element};
ghost use Rattle.logic.specs.Reading.{read_variable, read_term};
ghost use Rattle.terms.specs.memory.Entries.{setting_of, memory};
ghost use Rattle.terms.specs.memory.Lists.{up_to};
ghost use Rattle.terms.specs.memory.TermReads.{ToldName, read_element, read_variable_term, ToldTerm, closed_up_to, read_term_list, ToldTerms};

use crate::name_table::NameTable;
use crate::setting::Setting;
use text::byte::{Class, is_capital, is_digit, is_small, peek, run_end};
use text::cell::set;
use text::name::{Name, equal};
use text::number::number_at;
use text::read::Read;
use words::tag::Tag;

// How many terms there are, and whether each is an element of the domain or a bound variable.
#[derive(Clone, Copy)]
pub struct Terms {
    pub count: usize,
    pub named: bool,
}

impl Terms {
    // With one more behind them.
    fn and(self, named: bool) -> Terms
        requires { self.count ≤ 65536 }
        ensures { result ≡ record { count = self.count + 1; named = self.named && named } }
    {
        Terms {
            count: self.count + 1,
            named: self.named && named,
        }
    }
}

fn is_truth(name: &[u8]) -> bool
    ensures { result ≡ (same name.now (bytes "true") || same name.now (bytes "false")) }
{
    equal(name, b"true") || equal(name, b"false")
}

// The name from one place to another.
fn name_to(at: usize, end: usize) -> Read<Name>
    requires { (at ≤ end) × (end ≤ 65536) }
    ensures { result ≡ record { value = record { start = at; size = end - at }; next = end } }
{
    Read {
        value: Name {
            start: at as u32,
            size: (end - at) as u32,
        },
        next: end,
    }
}

// That a place lies in the text, and that words are not stored far behind it, stay clauses of each function here and in the crates above: a struct
// of the setting with a place would be made anew at each step, and would be no plainer.

// The variable at a place.
pub fn variable_at(setting: &Setting, at: usize) -> Option<Read<Name>>
    requires { at ≤ length setting.now.text.now }
    ensures { ToldName read_variable setting.now.text.now at result }
{
    let text = setting.text;
    if !is_small(peek(text, at)) {
        return None;
    }
    let name = name_to(at, run_end(text, at, Class::SmallOrDigit));
    if is_truth(name.value.of(text)) {
        return None;
    }
    Some(name)
}

// The predicate's name at a place.
pub fn predicate_at(setting: &Setting, at: usize) -> Option<Read<Name>>
    requires { at ≤ length setting.now.text.now }
    ensures { ToldName (read_name 5) setting.now.text.now at result }
{
    let text = setting.text;
    if !is_capital(peek(text, at)) {
        return None;
    }
    Some(name_to(at, run_end(text, at, Class::LetterOrDigit)))
}

fn is_element(domain: u32, value: u32) -> bool
    ensures { result ≡ is_element domain value }
{
    (1..=domain).contains(&value)
}

// The variables' table and working memory stay two arguments here and in the crates above: as one struct they would be no plainer, since each
// contract and each loop would have to say besides that it still lends the same table and the same words.

// The element at a place, and whether it is one of the domain.
fn read_element(
    setting: &Setting,
    at: usize,
    names: &mut NameTable,
    work: &mut [u32],
    to: usize,
) -> Option<Read<bool>>
    requires { at ≤ length setting.now.text.now }
    ensures { ToldTerm (setting_of setting.now) read_element at (memory names.old work.old) to result (memory names.new work.new) }
{
    let Read { value, next } = number_at(setting.text, at)?;
    let named = match value {
        Some(value) => {
            set(work, to, Tag::Element.word(value));
            is_element(setting.table.domain, value)
        }
        None => false,
    };
    Some(Read { value: named, next })
}

// The variable at a place, and whether it is bound.
fn read_variable(
    setting: &Setting,
    at: usize,
    names: &mut NameTable,
    work: &mut [u32],
    to: usize,
) -> Option<Read<bool>>
    requires { at ≤ length setting.now.text.now }
    ensures { ToldTerm (setting_of setting.now) read_variable_term at (memory names.old work.old) to result (memory names.new work.new) }
{
    let Read { value: name, next } = variable_at(setting, at)?;
    let index = names.list(setting.text, name);
    set(work, to, Tag::Variable.word(index));
    Some(Read {
        value: setting.scope.binds(setting.text, name.of(setting.text)),
        next,
    })
}

// The term at a place, and whether it is an element of the domain or a bound variable.
fn read_term(
    setting: &Setting,
    at: usize,
    names: &mut NameTable,
    work: &mut [u32],
    to: usize,
) -> Option<Read<bool>>
    requires { at ≤ length setting.now.text.now }
    ensures { ToldTerm (setting_of setting.now) read_term at (memory names.old work.old) to result (memory names.new work.new) }
{
    if is_digit(peek(setting.text, at)) {
        return read_element(setting, at, names, work, to);
    }
    read_variable(setting, at, names, work, to)
}

// One term, and at most so many more behind commas.
fn read_terms(
    setting: &Setting,
    at: usize,
    most: usize,
    names: &mut NameTable,
    work: &mut [u32],
    to: usize,
) -> Option<Read<Terms>>
    requires { (at ≤ length setting.now.text.now) × (to ≤ at + 1000000) }
    ensures { ToldTerms (setting_of setting.now) (up_to most read_term) at (memory names.old work.old) to result (memory names.new work.new) }
{
    let mut i = at;
    let mut terms = Terms {
        count: 0,
        named: true,
    };
    // A loop, since it is what follows a term that tells whether another is read.
    'terms: loop {
        let Read { value, next } = read_term(setting, i, names, work, to + terms.count)?;
        terms = terms.and(value);
        if terms.count > most || peek(setting.text, next) != b',' {
            return Some(Read { value: terms, next });
        }
        i = next + 1;
    }
}

// One term, and at most so many more behind commas, with a bracket behind them.
pub fn closed_terms(
    setting: &Setting,
    at: usize,
    most: usize,
    names: &mut NameTable,
    work: &mut [u32],
    to: usize,
) -> Option<Read<Terms>>
    requires { (at ≤ length setting.now.text.now) × (to ≤ at + 1000000) }
    ensures { ToldTerms (setting_of setting.now) (closed_up_to most) at (memory names.old work.old) to result (memory names.new work.new) }
{
    let Read { value, next } = read_terms(setting, at, most, names, work, to)?;
    if peek(setting.text, next) != b')' {
        return None;
    }
    Some(Read {
        value,
        next: next + 1,
    })
}

// The terms of an atom, if it has any.
pub fn read_arguments(
    setting: &Setting,
    at: usize,
    names: &mut NameTable,
    work: &mut [u32],
    to: usize,
) -> Option<Read<Terms>>
    requires { (at ≤ length setting.now.text.now) × (to ≤ at + 1000000) }
    ensures { ToldTerms (setting_of setting.now) read_term_list at (memory names.old work.old) to result (memory names.new work.new) }
{
    if peek(setting.text, at) != b'(' {
        return Some(Read {
            value: Terms {
                count: 0,
                named: true,
            },
            next: at,
        });
    }
    closed_terms(setting, at + 1, setting.text.len(), names, work, to)
}
