// A line of the theory's text, read and judged up to number 8. The limits, number 9, are those of the theory so far: they are judged by what is told
// of the line, and by the variables' table.
ghost use Rattle.std.specs.Prelude.{List, ℕ, ◌+◌, ◌≤◌, length};
ghost use Rattle.table.specs.memory.Table.{problem_in};
ghost use Rattle.terms.specs.memory.Entries.{predicate_index, memory};
ghost use Rattle.reading.specs.memory.TheoryLines.{ToldTheoryLine};

use crate::fault::Fault;
use crate::read::read_formula;
use terms::name_table::NameTable;
use terms::setting::Setting;
use text::byte::peek;
use text::read::Read;
use text::size::MOST_LEVELS;

// A line's formula: its size, and the most quantifiers on a path inside a guard of it.
#[derive(Clone, Copy)]
pub struct TheoryLine {
    pub size: usize,
    pub guarded: u32,
}

// The line at a place: a formula of at most 32 levels, with no variable bound around it.
pub fn read_theory_line(
    setting: &Setting,
    at: usize,
    names: &mut NameTable,
    work: &mut [u32],
    to: usize,
) -> Result<Read<TheoryLine>, Fault>
    requires { (at ≤ length setting.now.text.now) × (to ≤ at + 1000000) }
    ensures { (rows : List ℕ) → ToldTheoryLine (problem_in setting.now.problem.now setting.now.table.now rows) setting.now.text.now (predicate_index setting.now.problem.now setting.now.table.now) at (memory names.old work.old) to result (memory names.new work.new) }
{
    let outer = Setting::new(setting.text, setting.problem, setting.table);
    let formula = read_formula(&outer, at, MOST_LEVELS, names, work, to)?;
    let facts = formula.value.facts;
    if peek(setting.text, formula.next) != b'\n' {
        return Err(Fault::Malformed);
    }
    if !facts.named {
        return Err(Fault::Unnamed);
    }
    if !facts.normal {
        return Err(Fault::Unnormal);
    }
    Ok(Read {
        value: TheoryLine {
            size: formula.value.size,
            guarded: facts.guarded,
        },
        next: formula.next + 1,
    })
}
