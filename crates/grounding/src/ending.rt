// The end of a derivation: 16 and 17.
ghost use Rattle.std.specs.Prelude.{ℕ, ◌≤◌, length};
ghost use Rattle.text.specs.memory.Sizes.{InWork};
ghost use Rattle.text.specs.memory.Numbers.{numbers_at};
ghost use Rattle.steps.specs.memory.Held.{held, end_in};
ghost use Rattle.steps.specs.memory.Memory.{held_of};
ghost use Rattle.grounding.specs.memory.Grounds.{EndJudged};

use clauses::clause::Formulas;
use names::names::are_listed;
use steps::fault::Fault;
use steps::memory::Memory;
use table::table::Table;
use text::number::Numbers;
use text::size::LEVEL_COUNT;

// 16 where the names of the text are not those of the live formulas; 17 where a formula is no ground clause, unless UNSAT was.
#[tactic(auto, unfolding(steps::specs::memory::Held::end_in))]
pub fn judge_end(
    text: &[u8],
    names: Numbers,
    table: &Table,
    words: &[u32],
    live: &[u32],
    ended: bool,
) -> Result<(), Fault>
    requires { InWork words.now × (length live.now ≤ 1024) }
    ensures { (top : ℕ) → EndJudged (end_in table.now (held words.now live.now top ended) (numbers_at text.now names.at names.many)) result }
{
    if !are_listed(text, names, live) {
        return Err(Fault::Footer);
    }
    if ended {
        return Ok(());
    }
    let formulas = Formulas { work: words, table };
    if !formulas.are_clauses(0, LEVEL_COUNT, live.len() as u32) {
        return Err(Fault::Clause);
    }
    Ok(())
}

// The same of the live formulas in memory.
pub fn judge(text: &[u8], names: Numbers, table: &Table, memory: &Memory) -> Result<(), Fault>
    ensures { EndJudged (end_in table.now (held_of memory.now) (numbers_at text.now names.at names.many)) result }
{
    let full = memory.live.full;
    let start = memory.layout.names;
    let end = start + memory.live.count;
    let words = &memory.work[..full];
    let live = &memory.work[start..end];
    judge_end(text, names, table, words, live, memory.live.ended)
}
