// Checks the derivation of the folder that it is run in, and prints the answer.
#![tactic(auto)]

use std::io::Result;

fn main(rt: HostRuntime) -> Result<()> {
    desk::check_files(
        &rt,
        b"problem.fox",
        b"theory.fox",
        b"proof.fox",
        b"claim.fox",
    )
}
