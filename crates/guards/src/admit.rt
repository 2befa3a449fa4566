// The guard of a quantifier: whether no other variable is free in it, and which elements it admits.
ghost use Rattle.std.specs.Prelude.{◌≡◌, ◌<◌, length, drop, take};
ghost use Rattle.text.specs.memory.Sizes.{InWork};
ghost use Rattle.guards.specs.memory.Admitted.{guard_closed, admitted_flags};

use crate::guard::Guards;
use crate::scope::Scope;
use crate::variable::with;
use text::size::{DOMAIN_SIZE, VARIABLE_COUNT};
use words::word::peek;

// Whether the quantifier's variable is the only one that is free in its guard.
#[tactic(auto, using(crate::proofs::memory::Admitted::closed_here))]
pub fn guard_closed(work: &[u32], at: usize, levels: usize) -> bool
    requires { (at < length work.now) × InWork work.now }
    ensures { result ≡ guard_closed levels (drop at work.now) }
{
    let none = [false; VARIABLE_COUNT];
    let flags = with(none, peek(work, at) / 16, true);
    Scope { work, flags }.is_closed(at + 1, levels)
}

// A flag for each element, set if the guard is true with the element for the quantifier's variable.
#[tactic(auto, using(crate::proofs::memory::Admitted::flags_told))]
pub fn admitted(guards: &Guards, at: usize, levels: usize) -> [bool; DOMAIN_SIZE]
    requires { at < length guards.now.work.now }
    ensures { take guards.now.structure.now.table.now.domain result ≡ admitted_flags guards.now.structure.now.table.now guards.now.structure.now.rows.now levels (drop at guards.now.work.now) }
{
    let variable = peek(guards.work, at) / 16;
    let none = [0u8; VARIABLE_COUNT];
    let mut flags = [false; DOMAIN_SIZE];
    for i in 0..guards.structure.table.domain {
        let values = with(none, variable, i as u8 + 1);
        flags[i as usize] = guards.evaluate(at + 1, levels, values);
    }
    flags
}
