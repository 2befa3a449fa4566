// Formulas of the theory's text, read into words and judged on the way. Reading a formula calls reading its parts, its guard and its body, which
// call it again; the levels left fall. What stays the same is in the setting; where the text is read and where words are stored changes from call
// to call, so what is asked of both stands at each function. The variables' table and the words are lent side by side: of a struct that holds both,
// each function would have to promise besides that it still holds the same two.
ghost use Rattle.std.specs.Prelude.{◌≡◌, ◌+◌, ◌≤◌, ◌<◌, length};
ghost use Rattle.logic.specs.Reading.{read_quantifier, read_formula};
ghost use Rattle.words.specs.memory.Stored.{side_of, connective_of};
ghost use Rattle.terms.specs.memory.Lists.{up_to};
ghost use Rattle.terms.specs.memory.Entries.{setting_of, memory};
ghost use Rattle.reading.specs.memory.Openings.{read_connective};
ghost use Rattle.reading.specs.memory.FormulaReads.{Told, ToldBehind};
ghost use Rattle.reading.specs.memory.PartReads.{none_told, with_told, ToldParts, ToldGuarded, read_guarded};

use crate::fault::Fault;
use crate::leaf::read_leaf;
use crate::opening::{Opening, opening_at};
use crate::part_list::{another_follows, close_size, further_parts, none_follow, parts_close};
use terms::fact::Facts;
use terms::name_table::NameTable;
use terms::setting::Setting;
use terms::term::variable_at;
use text::byte::{begins_at, peek};
use text::cell::set;
use text::read::Read;
use words::head::{connective_word, quantifier_word};
use words::word::Sign;

// A formula's size, and what is told of it.
#[derive(Clone, Copy)]
pub struct Measured {
    pub size: usize,
    pub facts: Facts,
}

// Parts of a connective: how many they are, their size, and what is told of them.
#[derive(Clone, Copy)]
pub struct Parts {
    pub count: usize,
    pub size: usize,
    pub facts: Facts,
}

impl Parts {
    fn none() -> Parts
        ensures { result ≡ none_told }
    {
        Parts {
            count: 0,
            size: 0,
            facts: Facts::simple(true, true),
        }
    }

    // With one more.
    fn with(self, one: Measured) -> Parts
        requires { (self.count ≤ 65536) × (self.size ≤ 65536) × (one.size ≤ 65536) }
        ensures { result ≡ with_told self one }
    {
        Parts {
            count: self.count + 1,
            size: self.size + one.size,
            facts: self.facts.beside(one.facts),
        }
    }
}

// A guard and a body: their size together, and what is told of each.
#[derive(Clone, Copy)]
pub struct Guarded {
    pub size: usize,
    pub guard: Facts,
    pub body: Facts,
}

// The formula at a place, with so many levels left.
#[cycle(formula)]
pub fn read_formula(
    setting: &Setting,
    at: usize,
    levels: u32,
    names: &mut NameTable,
    work: &mut [u32],
    to: usize,
) -> Result<Read<Measured>, Fault>
    requires { (at ≤ length setting.now.text.now) × (to ≤ at + 1000000) × (setting.now.scope.count + levels ≤ 32) }
    ensures { Told (read_formula levels) (setting_of setting.now) at (memory names.old work.old) to result (memory names.new work.new) }
{
    if levels == 0 {
        return Err(Fault::Deep);
    }
    let Some(opening) = opening_at(setting.text, at) else {
        return read_leaf(setting, at, names, work, to).ok_or(Fault::Malformed);
    };
    let next = opening.next;
    let left = levels - 1;
    match opening.value {
        Opening::Connective(sign) => read_connective(setting, next, left, sign, names, work, to),
        Opening::Quantifier { every } => {
            read_quantifier(setting, next, left, every, names, work, to)
        }
    }
}

// What follows a connective's sign; its parts have so many levels left.
#[cycle(formula)]
fn read_connective(
    setting: &Setting,
    at: usize,
    levels: u32,
    sign: Sign,
    names: &mut NameTable,
    work: &mut [u32],
    to: usize,
) -> Result<Read<Measured>, Fault>
    requires { (at ≤ length setting.now.text.now) × (to < at + 1000000) × (setting.now.scope.count + levels ≤ 32) }
    ensures { ToldBehind (read_connective (read_formula levels) (connective_of sign)) (setting_of setting.now) at (memory names.old work.old) to result (memory names.new work.new) }
{
    if none_follow(setting.text, at, sign) {
        set(work, to, connective_word(sign, 0));
        let facts = Facts::of_connective(sign, Facts::simple(true, true));
        return Ok(Read {
            value: Measured { size: 1, facts },
            next: at + 1,
        });
    }
    let most = further_parts(setting.text, sign);
    let parts = read_parts(setting, at, most, levels, names, work, to + 1)?;
    let Parts { count, size, facts } = parts.value;
    if !parts_close(setting.text, parts.next, sign, count) {
        return Err(Fault::Malformed);
    }
    set(work, to, connective_word(sign, count as u32));
    let facts = Facts::of_connective(sign, facts);
    Ok(Read {
        value: Measured {
            size: size + 1,
            facts,
        },
        next: parts.next + close_size(sign),
    })
}

// One part, and at most so many more behind commas.
#[cycle(formula)]
fn read_parts(
    setting: &Setting,
    at: usize,
    most: usize,
    levels: u32,
    names: &mut NameTable,
    work: &mut [u32],
    to: usize,
) -> Result<Read<Parts>, Fault>
    requires { (at ≤ length setting.now.text.now) × (to ≤ at + 1000000) × (setting.now.scope.count + levels ≤ 32) }
    ensures { ToldParts (up_to most (read_formula levels)) (setting_of setting.now) at (memory names.old work.old) to result (memory names.new work.new) }
{
    let mut i = at;
    let mut parts = Parts::none();
    // No `for`: the text tells, part by part, whether another follows and where it begins.
    loop {
        let more = most - parts.count;
        let one = read_formula(setting, i, levels, names, work, to + parts.size)?;
        parts = parts.with(one.value);
        if !another_follows(setting.text, one.next, more) {
            return Ok(Read {
                value: parts,
                next: one.next,
            });
        }
        i = one.next + 1;
    }
}

// What follows a quantifier's sign; its guard and its body have so many levels left, and lie within its binding.
#[cycle(formula)]
fn read_quantifier(
    setting: &Setting,
    at: usize,
    levels: u32,
    every: bool,
    names: &mut NameTable,
    work: &mut [u32],
    to: usize,
) -> Result<Read<Measured>, Fault>
    requires { (at ≤ length setting.now.text.now) × (to < at + 1000000) × (setting.now.scope.count + levels < 32) }
    ensures { ToldBehind (read_quantifier (read_formula levels) (side_of every)) (setting_of setting.now) at (memory names.old work.old) to result (memory names.new work.new) }
{
    let Some(variable) = variable_at(setting, at) else {
        return Err(Fault::Malformed);
    };
    let name = variable.value;
    if peek(setting.text, variable.next) != b'[' {
        return Err(Fault::Malformed);
    }
    let index = names.list(setting.text, name);
    let inner = setting.binding(name);
    let guarded = read_guarded(&inner, variable.next + 1, levels, names, work, to + 1)?;
    let Guarded { size, guard, body } = guarded.value;
    set(work, to, quantifier_word(every, index));
    Ok(Read {
        value: Measured {
            size: size + 1,
            facts: Facts::of_quantifier(every, guard, body),
        },
        next: guarded.next,
    })
}

// A guard and a body, with `]:` between them.
#[cycle(formula)]
fn read_guarded(
    setting: &Setting,
    at: usize,
    levels: u32,
    names: &mut NameTable,
    work: &mut [u32],
    to: usize,
) -> Result<Read<Guarded>, Fault>
    requires { (at ≤ length setting.now.text.now) × (to ≤ at + 1000000) × (setting.now.scope.count + levels ≤ 32) }
    ensures { ToldGuarded (read_guarded (read_formula levels)) (setting_of setting.now) at (memory names.old work.old) to result (memory names.new work.new) }
{
    let guard = read_formula(setting, at, levels, names, work, to)?;
    if !begins_at(setting.text, guard.next, b"]:") {
        return Err(Fault::Malformed);
    }
    let behind = to + guard.value.size;
    let body = read_formula(setting, guard.next + 2, levels, names, work, behind)?;
    Ok(Read {
        value: Guarded {
            size: guard.value.size + body.value.size,
            guard: guard.value.facts,
            body: body.value.facts,
        },
        next: body.next,
    })
}
