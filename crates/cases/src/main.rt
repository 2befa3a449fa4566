// Runs the cases of data/ and prints each answer: whole runs of check and replay, and folders by the desk.
#![tactic(auto)]

mod folders;
mod lent;
mod runs;

use std::io::Result;

fn main(rt: HostRuntime) -> Result<()> {
    runs::all(&rt)?;
    folders::all(&rt)
}
