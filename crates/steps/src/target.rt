// The formula that a rule line names, and the place of its path: 11 and 12, and 13 for a rule that takes no path.
ghost use Rattle.std.specs.Prelude.{◌+◌, ◌≤◌, ◌<◌, length, take, drop, IfOk};
ghost use Rattle.steps.specs.memory.Held.{held, target_in, whole_in};
ghost use Rattle.steps.specs.memory.Memory.{held_of, position_of, ToldTarget};

use crate::fault::Fault;
use crate::live::Live;
use crate::memory::Memory;
use crate::position::TextPosition;
use names::names::index_of;
use words::walk::{past, walk};

// The index of the formula that a rule line names, and the place of its path.
#[derive(Clone, Copy)]
pub struct Target {
    pub index: usize,
    pub at: usize,
}

// In memory of any arrangement: the words at its front, and the names from a place on.
#[tactic(auto, unfolding(crate::specs::memory::Held::target_in))]
pub fn path_target(
    at: &TextPosition,
    work: &[u32],
    names: usize,
    live: Live,
) -> Result<Target, Fault>
    requires { (names + live.count ≤ length work.now) × (live.full ≤ length work.now) }
    ensures found { ToldTarget (target_in (held (take live.full work.now) (take live.count (drop names work.now)) live.top live.ended) (position_of at.now)) result }
    ensures within { IfOk result (λ t. (t.index < live.count) × (t.at ≤ live.full)) }
{
    let list = &work[names..names + live.count];
    let index = index_of(list, at.position.name).ok_or(Fault::Name)?;
    let words = &work[..live.full];
    let start = past(words, 0, index);
    let place = walk(words, start, at.text, at.position.path).ok_or(Fault::Path)?;
    Ok(Target { index, at: place })
}

// The target of a rule that takes no path.
#[tactic(auto, unfolding(crate::specs::memory::Held::whole_in), using(crate::proofs::Targets::steps_tested))]
pub fn whole_target(
    at: &TextPosition,
    work: &[u32],
    names: usize,
    live: Live,
) -> Result<Target, Fault>
    requires { (names + live.count ≤ length work.now) × (live.full ≤ length work.now) }
    ensures found { ToldTarget (whole_in (held (take live.full work.now) (take live.count (drop names work.now)) live.top live.ended) (position_of at.now)) result }
    ensures within { IfOk result (λ t. (t.index < live.count) × (t.at ≤ live.full)) }
{
    let target = path_target(at, work, names, live)?;
    if at.position.path.many > 0 || live.ended {
        return Err(Fault::Rule);
    }
    Ok(target)
}

impl Memory<'_> {
    pub(crate) fn path_target(&self, at: &TextPosition) -> Result<Target, Fault>
        ensures found { ToldTarget (target_in (held_of self.now) (position_of at.now)) result }
        ensures within { IfOk result (λ t. (t.index < self.now.live.count) × (t.at ≤ self.now.live.full)) }
    {
        path_target(at, self.work, self.layout.names, self.live)
    }

    pub(crate) fn whole_target(&self, at: &TextPosition) -> Result<Target, Fault>
        ensures found { ToldTarget (whole_in (held_of self.now) (position_of at.now)) result }
        ensures within { IfOk result (λ t. (t.index < self.now.live.count) × (t.at ≤ self.now.live.full)) }
    {
        whole_target(at, self.work, self.layout.names, self.live)
    }
}
