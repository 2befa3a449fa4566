// The lines that declare: `domain=`, and a predicate's name and arity behind `input=` or `output=`.
ghost use Rattle.std.specs.Prelude.{◌≡◌, ◌+◌, ◌≤◌, ◌<◌, length};
ghost use Rattle.grammar.specs.Problem.{read_domain};
ghost use Rattle.text.specs.memory.Sizes.{ShortText};
ghost use Rattle.problem.specs.memory.Declarations.{read_last_number, ToldLast, ToldDeclaration, named_at, predicate_fits_in, ToldDeclared};

use crate::end::line_closed;
use crate::fault::Fault;
use table::table::Table;
use text::byte::{Class, begins_at, is_capital, peek, run_end};
use text::name::Name;
use text::number::number_at;
use text::read::Read;
use text::size::{GREATEST_ARITY, LAST_PREDICATE, NAME_SIZE};

// A predicate whose name stands at the place that it was read at: the name's size, and the arity, if that is not too large to be told.
#[derive(Clone, Copy)]
pub struct Declaration {
    pub size: usize,
    pub arity: Option<u32>,
}

// A number that ends its line. Here and below, text and place are passed side by side, as to the readers of the crate `text` that are
// called, whose contracts ask the same of them.
#[tactic(auto, using(crate::proofs::DeclarationPlaces::ends))]
fn last_number(text: &[u8], at: usize) -> Option<Read<Option<u32>>>
    requires { at ≤ length text.now }
    ensures { ToldLast read_last_number text.now at result }
{
    let Read { value, next } = number_at(text, at)?;
    let next = line_closed(text, next)?;
    Some(Read { value, next })
}

// The domain's size.
pub fn domain_at(text: &[u8], at: usize) -> Option<Read<Option<u32>>>
    requires { at ≤ length text.now }
    ensures { ToldLast read_domain text.now at result }
{
    if !begins_at(text, at, b"domain=") {
        return None;
    }
    last_number(text, at + 7)
}

// What follows `input=` or `output=`.
pub fn declaration_at(text: &[u8], at: usize) -> Option<Read<Declaration>>
    requires { at ≤ length text.now }
    ensures { ToldDeclaration text.now at result }
{
    if !is_capital(peek(text, at)) {
        return None;
    }
    let end = run_end(text, at, Class::LetterOrDigit);
    if peek(text, end) != b'/' {
        return None;
    }
    let Read { value: arity, next } = last_number(text, end + 1)?;
    Some(Read {
        value: Declaration {
            size: end - at,
            arity,
        },
        next,
    })
}

// Whether a predicate may join those of a table.
#[tactic(auto, using(crate::proofs::ProblemPlaces::told))]
fn fits(text: &[u8], table: &Table, name: Name, arity: u32) -> bool
    requires { name.start + name.size ≤ length text.now }
    ensures { result ≡ predicate_fits_in text.now table.now (named_at text.now name arity) }
{
    if arity > GREATEST_ARITY || name.size as usize > NAME_SIZE || table.count > LAST_PREDICATE {
        return false;
    }
    table.find(text, name.of(text)).is_none()
}

// What follows `input=` or `output=`, entered behind the table's predicates, if it may join them.
#[tactic(auto, using(crate::proofs::ProblemPlaces::told))]
pub fn declared(text: &[u8], at: usize, table: &Table) -> Result<Read<Table>, Fault>
    requires { (at ≤ length text.now) × ShortText text.now }
    ensures { ToldDeclared text.now at table.now result }
{
    let Read { value, next } = declaration_at(text, at).ok_or(Fault::Malformed)?;
    let arity = value.arity.ok_or(Fault::Unfit)?;
    let name = Name {
        start: at as u32,
        size: value.size as u32,
    };
    if !fits(text, table, name, arity) {
        return Err(Fault::Unfit);
    }
    Ok(Read {
        value: table.with_name(name, arity),
        next,
    })
}
