// Truth values, equalities and atoms of the theory's text, read into words and judged on the way.
ghost use Rattle.std.specs.Prelude.{◌≡◌, true, ◌&&◌, ◌+◌, ◌≤◌, ◌<◌, length, set};
ghost use Rattle.grammar.specs.Problem.{predicates, declared, is_input};
ghost use Rattle.logic.specs.Reading.{read_equality, read_atom};
ghost use Rattle.table.specs.memory.Table.{name_at};
ghost use Rattle.words.specs.memory.Words.{truth_word};
ghost use Rattle.terms.specs.memory.Signature.{signature_of};
ghost use Rattle.terms.specs.memory.Facts.{simple_facts};
ghost use Rattle.terms.specs.memory.Entries.{setting_of, memory};
ghost use Rattle.reading.specs.memory.FormulaReads.{read_leaf, read_to, ToldLeaf};

use crate::read::Measured;
use terms::fact::Facts;
use terms::name_table::NameTable;
use terms::setting::Setting;
use terms::signature::{is_declared, is_input};
use terms::term::{Terms, closed_terms, predicate_at, read_arguments};
use text::byte::begins_at;
use text::cell::set;
use text::name::Name;
use text::read::Read;
use words::head::truth_word;
use words::tag::Tag;

// What follows `=(`.
fn read_equality(
    setting: &Setting,
    at: usize,
    names: &mut NameTable,
    work: &mut [u32],
    to: usize,
) -> Option<Read<Measured>>
    requires { (at ≤ length setting.now.text.now) × (to < at + 1000000) }
    ensures { ToldLeaf read_equality (setting_of setting.now) at (memory names.old work.old) to result (memory names.new work.new) }
{
    let terms = closed_terms(setting, at, 1, names, work, to + 1)?;
    if terms.value.count != 2 {
        return None;
    }
    set(work, to, Tag::Equality.word(0));
    let facts = Facts::simple(terms.value.named, true);
    Some(Read {
        value: Measured { size: 3, facts },
        next: terms.next,
    })
}

fn atom_facts(setting: &Setting, name: Name, terms: Terms) -> Facts
    ensures { result ≡ simple_facts (declared (predicates (signature_of setting.now.problem.now setting.now.table.now)) (name_at setting.now.text.now name) terms.count && terms.named) (is_input (signature_of setting.now.problem.now setting.now.table.now) (name_at setting.now.text.now name)) }
{
    let name = name.of(setting.text);
    let declared = is_declared(setting.problem, setting.table, name, terms.count);
    let input = is_input(setting.problem, setting.table, name);
    Facts::simple(declared && terms.named, input)
}

fn read_atom(
    setting: &Setting,
    at: usize,
    names: &mut NameTable,
    work: &mut [u32],
    to: usize,
) -> Option<Read<Measured>>
    requires { (at ≤ length setting.now.text.now) × (to ≤ at + 1000000) }
    ensures { ToldLeaf read_atom (setting_of setting.now) at (memory names.old work.old) to result (memory names.new work.new) }
{
    let name = predicate_at(setting, at)?;
    let terms = read_arguments(setting, name.next, names, work, to + 1)?;
    let Terms { count, named: _ } = terms.value;
    let found = setting
        .table
        .find(setting.problem, name.value.of(setting.text));
    // A predicate that is not known has the index behind all, and the formula is refused when its line is judged.
    let index = found.unwrap_or(setting.table.count);
    set(work, to, Tag::Atom.word(count as u32 * 256 + index));
    Some(Read {
        value: Measured {
            size: count + 1,
            facts: atom_facts(setting, name.value, terms.value),
        },
        next: terms.next,
    })
}

fn read_truth(value: bool, work: &mut [u32], to: usize, next: usize) -> Option<Read<Measured>>
    ensures is { result ≡ Some (read_to 1 (simple_facts true true) next) }
    ensures stored { work.new ≡ set work.old to (truth_word value) }
{
    set(work, to, truth_word(value));
    Some(Read {
        value: Measured {
            size: 1,
            facts: Facts::simple(true, true),
        },
        next,
    })
}

// The formula at a place, if it has no formula in it.
pub fn read_leaf(
    setting: &Setting,
    at: usize,
    names: &mut NameTable,
    work: &mut [u32],
    to: usize,
) -> Option<Read<Measured>>
    requires { (at ≤ length setting.now.text.now) × (to ≤ at + 1000000) }
    ensures { ToldLeaf read_leaf (setting_of setting.now) at (memory names.old work.old) to result (memory names.new work.new) }
{
    if begins_at(setting.text, at, b"true") {
        return read_truth(true, work, to, at + 4);
    }
    if begins_at(setting.text, at, b"false") {
        return read_truth(false, work, to, at + 5);
    }
    if begins_at(setting.text, at, b"=(") {
        return read_equality(setting, at + 2, names, work, to);
    }
    read_atom(setting, at, names, work, to)
}
