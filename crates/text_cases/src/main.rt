// Runs the cases of data/ on the text layer and prints each answer: derivation lines, headings, problems and refused lines.
#![tactic(auto)]

mod echo;
mod headings;
mod lines;
mod problems;
mod refused;
mod texts;

use std::io::Result;

fn main(rt: HostRuntime) -> Result<()> {
    lines::run(&rt)?;
    texts::run(&rt)
}
