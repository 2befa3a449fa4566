// The three texts up to the ground theory in memory: 3 to 17.
ghost use Rattle.std.specs.Prelude.{◌≡◌, ◌≤◌, length, take, IfOk};
ghost use Rattle.grammar.specs.Outcome.{done};
ghost use Rattle.grammar.specs.Problem.{problem_of};
ghost use Rattle.demands.specs.Answer.{grounded};
ghost use Rattle.text.specs.memory.Sizes.{ShortText, FewElements, FewPredicates};
ghost use Rattle.table.specs.memory.Table.{problem_in};
ghost use Rattle.steps.specs.memory.Steps.{rows_in, Arranged};
ghost use Rattle.steps.specs.memory.Memory.{rows_of, held_of, Kept};
ghost use Rattle.grounding.specs.declared.fault.Fault.TheVariants.{Problem, Theory, Derivation};
ghost use Rattle.grounding.specs.memory.Grounds.{GroundTold, ended_in, EndTold, FirstNamed, HeldIn};

use crate::ending::judge;
use crate::fault::{Fault, Refusal};
use crate::replaying;
use crate::replaying::replay_text;
use names::names::put_first;
use problem::problem_line;
use problem::problem_line::read_problem;
use steps::live::{Layout, Live};
use steps::memory::Memory;
use table::table::Table;
use terms::name_table::NameTable;
use theory::theory_reader;
use theory::theory_reader::{Theory, read_theory};

// What is known of a ground theory: the count of rule lines, and the table of its predicates.
#[derive(Clone, Copy)]
pub struct Grounded {
    pub rules: u32,
    pub table: Table,
}

// The same with the memory that has its formulas, lent on as it was lent.
#[derive(Drop)]
pub struct GroundMemory<'a> {
    pub grounded: Grounded,
    pub memory: Memory<'a>,
}

impl GroundMemory<'_> {
    // The words of the live formulas.
    pub fn words(&self) -> &[u32]
        ensures { result.now ≡ take self.now.memory.live.full self.now.memory.work.now }
    {
        let full = self.memory.live.full;
        &self.memory.work[..full]
    }
}

// One for each text, with a refusal of its own. One generic type for the three would need a From of it and one of each fault: four where three stand.
impl From<problem_line::Refusal> for Refusal {
    ghost from_gives = { λ r g. g ≡ record { fault = Problem r.fault; line = r.line } };

    fn from(refusal: problem_line::Refusal) -> Refusal {
        Refusal {
            fault: Fault::Problem(refusal.fault),
            line: refusal.line,
        }
    }
}

impl From<theory_reader::Refusal> for Refusal {
    ghost from_gives = { λ r g. g ≡ record { fault = Theory r.fault; line = r.line } };

    fn from(refusal: theory_reader::Refusal) -> Refusal {
        Refusal {
            fault: Fault::Theory(refusal.fault),
            line: refusal.line,
        }
    }
}

impl From<replaying::Refusal> for Refusal {
    ghost from_gives = { λ r g. g ≡ record { fault = Derivation r.fault; line = r.line } };

    fn from(refusal: replaying::Refusal) -> Refusal {
        Refusal {
            fault: Fault::Derivation(refusal.fault),
            line: refusal.line,
        }
    }
}

// A derivation with its end, on the live formulas; how many rule lines it has: 10 to 17. The texts and the table come one after the other, so
// that each function says what it asks of those that it has.
fn replay_end(text: &[u8], table: &Table, memory: &mut Memory) -> Result<u32, replaying::Refusal>
    requires { FewElements table.now.domain × ShortText text.now }
    ensures told { EndTold (ended_in table.now (rows_of memory.old) (held_of memory.old) text.now) result memory.new }
    ensures kept { Kept memory.old memory.new }
{
    let replayed = replay_text(text, table, memory)?;
    match judge(text, replayed.names, table, memory) {
        Ok(()) => Ok(replayed.rules),
        Err(fault) => Err(replaying::Refusal {
            fault,
            line: replayed.line,
        }),
    }
}

// The live formulas of a theory that was read: named 1, 2, 3 and so on.
fn named<'a>(work: &'a mut [u32], layout: Layout, theory: Theory) -> Memory<'a>
    requires { Arranged layout (length work.old) × (theory.count ≤ 1024) × (theory.full ≤ 4096) }
    ensures named { FirstNamed layout theory work.old result }
    ensures kept { HeldIn layout work.entry result }
{
    let start = layout.names;
    let Theory { count, full } = theory;
    put_first(&mut work[start..], count);
    let live = Live {
        count,
        full,
        top: count as u32,
        ended: false,
    };
    Memory { work, layout, live }
}

// The theory and the derivation, where the problem is read.
fn ground_read<'a>(
    problem: &[u8],
    theory: &[u8],
    derivation: &[u8],
    work: &'a mut [u32],
    layout: Layout,
    table: Table,
) -> Result<GroundMemory<'a>, Refusal>
    requires { Arranged layout (length work.old) × ShortText theory.now × ShortText derivation.now × FewElements table.domain × FewPredicates table.count }
    ensures told { problem_of problem.now ≡ done (problem_in problem.now table (rows_in layout work.old)) → table.inputs ≤ table.count → GroundTold (grounded problem.now theory.now derivation.now) problem.now result }
    ensures kept { IfOk result (λ g. HeldIn layout work.entry g.memory) }
{
    let mut names = NameTable::new();
    let rows = layout.rows;
    let read = read_theory(theory, problem, &table, &mut names, &mut work[..rows])?;
    let mut memory = named(work, layout, read);
    let rules = replay_end(derivation, &table, &mut memory)?;
    Ok(GroundMemory {
        grounded: Grounded { rules, table },
        memory,
    })
}

pub fn ground_theory<'a>(
    problem: &[u8],
    theory: &[u8],
    derivation: &[u8],
    work: &'a mut [u32],
    layout: Layout,
) -> Result<GroundMemory<'a>, Refusal>
    requires { Arranged layout (length work.old) × ShortText problem.now × ShortText theory.now × ShortText derivation.now }
    ensures told { GroundTold (grounded problem.now theory.now derivation.now) problem.now result }
    ensures kept { IfOk result (λ g. HeldIn layout work.entry g.memory) }
{
    let rows = layout.rows;
    let names = layout.names;
    let table = read_problem(problem, &mut work[rows..names])?;
    ground_read(problem, theory, derivation, work, layout, table)
}
