// The files `problems` and `edges`: problems, each as 0 and what was read, or the number and the line that it is refused with.
use crate::echo;
use problem::problem_line::{Refusal, read_problem};
use std::io::Result;
use text::size::TEXT_SIZE;

// As many numbers as a problem's rows may take.
pub const ROWS: usize = 1056;

pub fn one(rt: &impl Print, name: &[u8], text: &[u8], rows: &mut [u32; ROWS]) -> Result<()> {
    rt.write_all(name)?;
    if text.len() > TEXT_SIZE {
        return println!(rt; ": 2");
    }
    match read_problem(text, rows) {
        Ok(table) => {
            println!(rt; ": 0")?;
            echo::problem(rt, text, &table, rows)
        }
        Err(Refusal { fault, line }) => println!(rt; ": {} at line {line}", fault.number()),
    }
}
