// A rule at a path: 11, 12, 13, 14, 15, or the theory with what the rule makes of the formula there.
ghost use Rattle.std.specs.Prelude.{◌≡◌, ◌≤◌, ◌<◌, length, drop, Some, IfOk, IfErr};
ghost use Rattle.text.specs.memory.Sizes.{FewElements};
ghost use Rattle.steps.specs.memory.Held.{rewritten_in, sized_in};
ghost use Rattle.steps.specs.memory.Memory.{rows_of, held_of, position_of, Kept, ToldStep};
ghost use Rattle.steps.specs.memory.Decisions.{ToldFlags, Decides, ToldDecision};

use crate::fault::Fault;
use crate::front::front_rewritten;
use crate::live::Live;
use crate::memory::Memory;
use crate::position::TextPosition;
use derivation::rule_line::Rule;
use formula::decide::{Fit, rule_fit};
use guards::admit::{admitted, guard_closed};
use guards::guard::Guards;
use table::structure::Structure;
use table::table::Table;
use text::size::{DOMAIN_SIZE, LEVEL_COUNT, THEORY_SIZE};

// What is decided of a formula, and the elements that count for IQ; for other rules none does, and nothing looks at them.
#[derive(Clone, Copy)]
struct Decision {
    fit: Fit,
    flags: [bool; DOMAIN_SIZE],
}

// The elements that the guard admits for IQ, if no other variable is free in it; none for other rules.
fn flags_for(fit: Fit, guards: &Guards, at: usize) -> Result<[bool; DOMAIN_SIZE], Fault>
    requires { at < length guards.now.work.now }
    ensures { ToldFlags guards.now.structure.now.table.now guards.now.structure.now.rows.now (drop at guards.now.work.now) fit result }
{
    match fit {
        Fit::Quantifier if guard_closed(guards.work, at, LEVEL_COUNT) => {
            Ok(admitted(guards, at, LEVEL_COUNT))
        }
        Fit::Quantifier => Err(Fault::Guard),
        _ => Ok([false; DOMAIN_SIZE]),
    }
}

impl Memory<'_> {
    // What is decided of the formula at a place, before anything is written.
    fn decision_at(&self, table: &Table, rule: Rule, at: usize) -> Result<Decision, Fault>
        requires { FewElements table.now.domain × (at ≤ self.now.live.full) }
        ensures decides { Decides table.now (rows_of self.now) rule (drop at (held_of self.now).words) result }
        ensures decided { ToldDecision table.now (rows_of self.now) rule (held_of self.now) at result }
        ensures within { IfOk result (λ d. at < self.now.live.full) }
    {
        let full = self.live.full;
        let rows = self.layout.rows;
        let names = self.layout.names;
        let structure = Structure {
            table,
            rows: &self.work[rows..names],
        };
        let guards = Guards {
            work: &self.work[..full],
            structure: &structure,
        };
        let fit = rule_fit(rule, &guards, at).ok_or(Fault::Rule)?;
        let flags = flags_for(fit, &guards, at)?;
        Ok(Decision { fit, flags })
    }

    // Does to the theory what was decided, if it does not become too large.
    fn replace(&mut self, at: usize, fit: Fit, flags: &[bool]) -> Result<(), Fault>
        requires { (at < self.old.live.full) × FewElements (length flags.now) }
        ensures told { ToldStep (sized_in (held_of self.old) at (Some fit) flags.now) self.old result self.new }
        ensures kept { Kept self.old self.new }
        ensures same { IfErr result (λ f. self.new.live ≡ self.old.live) }
    {
        let live = self.live;
        let rows = self.layout.rows;
        let next = self.layout.next;
        let total = front_rewritten(
            &mut self.work[..rows],
            at,
            live.full,
            next,
            Some(fit),
            flags,
        );
        if total > THEORY_SIZE {
            return Err(Fault::Size);
        }
        self.live = Live {
            full: total,
            ended: false,
            ..live
        };
        Ok(())
    }

    // SNAND, SNOR, STN, EPRED, EPROP and IQ
    #[tactic(auto, unfolding(crate::specs::memory::Held::rewritten_in))]
    pub fn rewrite(&mut self, table: &Table, rule: Rule, at: &TextPosition) -> Result<(), Fault>
        requires { FewElements table.now.domain }
        ensures told { ToldStep (rewritten_in table.now (rows_of self.old) (held_of self.old) rule (position_of at.now)) self.old result self.new }
        ensures kept { Kept self.old self.new }
        ensures same { IfErr result (λ f. self.new.live ≡ self.old.live) }
    {
        let target = self.path_target(at)?;
        if self.live.ended {
            return Err(Fault::Rule);
        }
        let decision = self.decision_at(table, rule, target.at)?;
        let domain = table.domain as usize;
        self.replace(target.at, decision.fit, &decision.flags[..domain])
    }
}
