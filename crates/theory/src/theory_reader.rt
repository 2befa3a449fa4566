// A theory's text read into memory, line by line: 5 to 9.
ghost use Rattle.std.specs.Prelude.{◌≡◌, List, ℕ, ◌≤◌, length};
ghost use Rattle.text.specs.memory.Sizes.{ShortText, FewElements, FewPredicates};
ghost use Rattle.table.specs.memory.Table.{problem_in};
ghost use Rattle.terms.specs.memory.NameTable.{names_in};
ghost use Rattle.terms.specs.memory.Entries.{predicate_index};
ghost use Rattle.theory.specs.memory.TheoryReads.{totals_fit, ToldTheory};

use reading::fault::Fault;
use reading::theory_line::read_theory_line;
use table::table::Table;
use terms::name_table::NameTable;
use terms::setting::Setting;
use text::size::{FORMULA_COUNT, GUARD_QUANTIFIER_COUNT, THEORY_SIZE};

// How many formulas there are, and how many words they have.
#[derive(Clone, Copy)]
pub struct Theory {
    pub count: usize,
    pub full: usize,
}

// What the text is refused for, and at which line.
#[derive(Clone, Copy, PartialEq, Eq, Debug)]
pub struct Refusal {
    pub fault: Fault,
    pub line: u32,
}

// Whether a theory is within its limits, as far as it is read.
#[tactic(auto, unfolding(grammar::specs::Sizes::theory_size, grammar::specs::Sizes::formula_count, grammar::specs::Sizes::guard_quantifier_count))]
fn limits_fit(text: &[u8], names: &NameTable, full: usize, count: usize, guarded: u32) -> bool
    ensures { result ≡ totals_fit full count guarded (names_in text.now names.now) }
{
    full <= THEORY_SIZE
        && count <= FORMULA_COUNT
        && guarded <= GUARD_QUANTIFIER_COUNT
        && names.fit(text)
}

// The theory that a text is, its words at the front of memory; or the number and the line that the text is refused with.
pub fn read_theory(
    text: &[u8],
    problem: &[u8],
    table: &Table,
    names: &mut NameTable,
    work: &mut [u32],
) -> Result<Theory, Refusal>
    requires { ShortText text.now × FewElements table.now.domain × FewPredicates table.now.count × (names.old.count ≡ 0) × (4096 ≤ length work.old) }
    ensures { (rows : List ℕ) → ToldTheory (problem_in problem.now table.now rows) text.now (predicate_index problem.now table.now) result names.new work.new }
{
    let setting = Setting::new(text, problem, table);
    let mut at: usize = 0;
    let mut theory = Theory { count: 0, full: 0 };
    // By places, since where a line ends is known when it is read.
    while at < text.len() {
        let line = theory.count as u32 + 1;
        let read = match read_theory_line(&setting, at, names, work, theory.full) {
            Ok(read) => read,
            Err(fault) => return Err(Refusal { fault, line }),
        };
        theory.count += 1;
        theory.full += read.value.size;
        if !limits_fit(text, names, theory.full, theory.count, read.value.guarded) {
            return Err(Refusal {
                fault: Fault::Over,
                line,
            });
        }
        at = read.next;
    }
    Ok(theory)
}
