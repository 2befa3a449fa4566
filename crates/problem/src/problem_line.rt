// The problem, read line by line into a table.
ghost use Rattle.std.specs.Prelude.{◌≤◌, length};
ghost use Rattle.text.specs.memory.Sizes.{ShortText};
ghost use Rattle.problem.specs.memory.ProblemLines.{ProblemTold};

use crate::fault::Fault;
use crate::progress::Progress;
use table::table::Table;
use text::read::Read;

// Why a text is refused, and the line.
#[derive(Clone, Copy, PartialEq, Eq, Debug)]
pub struct Refusal {
    pub fault: Fault,
    pub line: u32,
}

// The problem that a text is, as a table and rows; or why and at which line the text is refused.
pub fn read_problem(text: &[u8], rows: &mut [u32]) -> Result<Table, Refusal>
    requires { ShortText text.now × (1056 ≤ length rows.old) }
    ensures { ProblemTold text.now rows.new result }
{
    let mut progress = Progress::new();
    let mut at: usize = 0;
    let mut line: u32 = 1;
    // By places: a line's end is known once it is read.
    while at < text.len() {
        match progress.line_at(text, at, rows) {
            Ok(Read { value, next }) => {
                progress = value;
                at = next;
                line += 1;
            }
            Err(fault) => {
                return Err(Refusal { fault, line });
            }
        }
    }
    if !progress.stage.may_end() {
        return Err(Refusal {
            fault: Fault::Malformed,
            line,
        });
    }
    Ok(progress.table)
}
