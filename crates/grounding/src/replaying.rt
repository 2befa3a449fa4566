// The replay of a derivation, line by line: 10 to 15.
ghost use Rattle.std.specs.Prelude.{◌≡◌, ◌≤◌, length, IfErr};
ghost use Rattle.demands.specs.Replay.{derivation_from};
ghost use Rattle.text.specs.memory.Sizes.{ShortText, FewElements};
ghost use Rattle.derivation.specs.memory.RuleLines.{rule_line_in, RuleLineBefore};
ghost use Rattle.steps.specs.memory.Held.{stepped_in};
ghost use Rattle.steps.specs.memory.Memory.{rows_of, held_of, Kept, ToldStep};
ghost use Rattle.grounding.specs.memory.Lines.{derived_in, Replaying, ToldReplayed};

use derivation::reader::Reader;
use derivation::rule_line::{Line, RuleLine};
use steps::fault::Fault;
use steps::memory::Memory;
use steps::position::TextPosition;
use table::table::Table;
use text::number::Numbers;

// What a derivation comes to: the count of its rule lines, and the footer's line and names. The live formulas are in memory.
#[derive(Clone, Copy)]
pub struct Replayed {
    pub rules: u32,
    pub line: u32,
    pub names: Numbers,
}

// The number of a line that is refused, and what it is refused with.
#[derive(Clone, Copy)]
pub struct Refusal {
    pub fault: Fault,
    pub line: u32,
}

// A line that is none of a derivation's.
fn malformed(line: u32) -> Refusal
    ensures { (result.fault ≡ Fault.Malformed) × (result.line ≡ line) }
{
    Refusal {
        fault: Fault::Malformed,
        line,
    }
}

// A rule line, done: an enum of what was read, since a closure can't be handed out. The table is beside the memory: a memory that held it would have to say at each step that it keeps it.
#[tactic(auto, unfolding(steps::specs::memory::Held::stepped_in))]
fn step(memory: &mut Memory, text: &[u8], table: &Table, line: RuleLine) -> Result<(), Fault>
    requires { FewElements table.now.domain × ShortText text.now × RuleLineBefore line (length text.now) }
    ensures told { ToldStep (stepped_in table.now (rows_of memory.old) (held_of memory.old) (rule_line_in text.now line)) memory.old result memory.new }
    ensures kept { Kept memory.old memory.new }
    ensures same { IfErr result (λ f. memory.new.live ≡ memory.old.live) }
{
    match line {
        RuleLine::Rewrite(rule, position) => {
            memory.rewrite(table, rule, &TextPosition { text, position })
        }
        RuleLine::Unsat(position) => memory.refute(&TextPosition { text, position }),
        RuleLine::Trivial(position) => memory.remove(&TextPosition { text, position }),
        RuleLine::Splitc(position, names) => memory.split(&TextPosition { text, position }, names),
    }
}

// Rule lines and the footer, from the reader's place on; nothing may stand behind the footer.
fn replay_lines(
    reader: &mut Reader,
    table: &Table,
    memory: &mut Memory,
) -> Result<Replayed, Refusal>
    requires small { FewElements table.now.domain × ShortText reader.old.text.now × (reader.old.at ≤ length reader.old.text.now) }
    requires replaying { Replaying table.now memory.old reader.old.text.now reader.old.at reader.old.line memory.old }
    ensures told { ToldReplayed (derived_in table.now memory.old reader.old.text.now) reader.old.text.now memory.old result memory.new }
    ensures kept { Kept memory.old memory.new }
{
    // The lines are as many as the reader finds: up to the footer, or the line that is refused.
    loop {
        let line = reader.line as u32;
        let Some(read) = reader.next_line() else {
            return Err(malformed(line));
        };
        match read {
            Line::Step(rule_line) => {
                if let Err(fault) = step(memory, reader.text, table, rule_line) {
                    return Err(Refusal { fault, line });
                }
            }
            Line::Footer(names) => {
                if !reader.is_done() {
                    return Err(malformed(line + 1));
                }
                let rules = line - 3;
                return Ok(Replayed { rules, line, names });
            }
        }
    }
}

// A whole derivation.
pub fn replay_text(text: &[u8], table: &Table, memory: &mut Memory) -> Result<Replayed, Refusal>
    requires { FewElements table.now.domain × ShortText text.now }
    ensures told { ToldReplayed (derivation_from (stepped_in table.now (rows_of memory.old)) (held_of memory.old) text.now) text.now memory.old result memory.new }
    ensures kept { Kept memory.old memory.new }
{
    let mut reader = Reader::new(text);
    let Some(()) = reader.version() else {
        return Err(malformed(1));
    };
    let Some(()) = reader.grounder() else {
        return Err(malformed(2));
    };
    replay_lines(&mut reader, table, memory)
}
