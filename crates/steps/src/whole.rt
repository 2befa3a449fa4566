// The rules that take no path: TRIVIAL, SPLITC and UNSAT.
ghost use Rattle.std.specs.Prelude.{◌≡◌, [], ◌∷◌, true, false, ◌+◌, ◌≤◌, ◌<◌, length, get_or, IfOk, IfErr};
ghost use Rattle.grammar.specs.Outcome.{done};
ghost use Rattle.derivation.specs.memory.RuleLines.{numbers_in};
ghost use Rattle.words.specs.memory.Words.{truth_word};
ghost use Rattle.words.specs.memory.Kinds.{kind_of};
ghost use Rattle.steps.specs.memory.Held.{held, opened_in, is_value, value_in, removed_in, is_split, split_in, refuted_in};
ghost use Rattle.steps.specs.memory.Memory.{held_of, position_of, Kept, Stepped, ToldTarget, ToldStep};

use crate::fault::Fault;
use crate::front::front_without;
use crate::live::Live;
use crate::memory::Memory;
use crate::position::TextPosition;
use crate::target::Target;
use names::names::{climbs, with_names};
use text::number::Numbers;
use text::size::FORMULA_COUNT_WITH_SPLIT;
use words::head::truth_word;
use words::word::{Kind, Sign, peek};

// Whether a word is that of a truth value.
fn is_truth(word: u32, value: bool) -> bool
    ensures { result ≡ is_value value (kind_of word) }
{
    matches!(Kind::from(word), Kind::Truth(b) if b == value)
}

// Whether a word is that of an `&` of so many parts, one or more. The count comes alone: where the names stand does not matter here.
fn is_split(word: u32, many: usize) -> bool
    ensures { result ≡ is_split (kind_of word) many }
{
    match Kind::from(word) {
        Kind::Connective {
            sign: Sign::Junction { every: true },
            parts,
        } => many != 0 && parts as usize == many,
        _ => false,
    }
}

impl Memory<'_> {
    // The word at a place of the theory; 0 behind it.
    fn word_at(&self, at: usize) -> u32
        ensures { result ≡ get_or (held_of self.now).words at 0 }
    {
        peek(&self.work[..self.live.full], at)
    }

    // The whole formula of a name, if it is that truth value.
    #[tactic(auto, unfolding(crate::specs::memory::Held::value_in))]
    fn value_target(&self, at: &TextPosition, value: bool) -> Result<Target, Fault>
        ensures found { ToldTarget (value_in value (held_of self.now) (position_of at.now)) result }
        ensures within { IfOk result (λ t. (t.index < self.now.live.count) × (t.at ≤ self.now.live.full)) }
    {
        let target = self.whole_target(at)?;
        if !is_truth(self.word_at(target.at), value) {
            return Err(Fault::Rule);
        }
        Ok(target)
    }

    // Takes the first word of a formula away, and gives the names of a text for its own.
    fn open(&mut self, text: &[u8], target: Target, names: Numbers, top: u32)
        requires { (target.index < self.old.live.count) × (target.at < self.old.live.full) × (self.old.live.count + names.many ≤ 1025) }
        ensures told { Stepped (opened_in (held_of self.old) (target.index, target.at) (numbers_in text.now names) top) self.old self.new }
        ensures kept { Kept self.old self.new }
    {
        let live = self.live;
        let rows = self.layout.rows;
        let start = self.layout.names;
        let full = front_without(
            &mut self.work[..rows],
            target.at,
            live.full,
            self.layout.next,
        );
        let count = with_names(
            &mut self.work[start..],
            target.index,
            live.count,
            self.layout.spare,
            text,
            names,
        );
        self.live = Live {
            count,
            full,
            top,
            ended: false,
        };
    }

    // Leaves of the theory one formula, `false`.
    fn falsify(&mut self, name: u32)
        ensures told { Stepped (done (held (truth_word false ∷ []) (name ∷ []) self.old.live.top true)) self.old self.new }
        ensures kept { Kept self.old self.new }
    {
        let start = self.layout.names;
        self.work[0] = truth_word(false);
        self.work[start] = name;
        self.live = Live {
            count: 1,
            full: 1,
            top: self.live.top,
            ended: true,
        };
    }

    // TRIVIAL
    #[tactic(auto, unfolding(crate::specs::memory::Held::removed_in, text::specs::memory::Numbers::numbers_at))]
    pub fn remove(&mut self, at: &TextPosition) -> Result<(), Fault>
        ensures told { ToldStep (removed_in (held_of self.old) (position_of at.now)) self.old result self.new }
        ensures kept { Kept self.old self.new }
        ensures same { IfErr result (λ f. self.new.live ≡ self.old.live) }
    {
        let target = self.value_target(at, true)?;
        let top = self.live.top;
        self.open(at.text, target, Numbers { at: 0, many: 0 }, top);
        Ok(())
    }

    // SPLITC
    #[tactic(auto, unfolding(crate::specs::memory::Held::split_in))]
    pub fn split(&mut self, at: &TextPosition, names: Numbers) -> Result<(), Fault>
        requires { names.at + names.many ≤ 65536 }
        ensures told { ToldStep (split_in (held_of self.old) (position_of at.now) (numbers_in at.now.text.now names)) self.old result self.new }
        ensures kept { Kept self.old self.new }
        ensures same { IfErr result (λ f. self.new.live ≡ self.old.live) }
    {
        let top = climbs(at.text, names, self.live.top).ok_or(Fault::Name)?;
        let target = self.whole_target(at)?;
        if !is_split(self.word_at(target.at), names.many) {
            return Err(Fault::Rule);
        }
        if self.live.count + names.many > FORMULA_COUNT_WITH_SPLIT {
            return Err(Fault::Size);
        }
        self.open(at.text, target, names, top);
        Ok(())
    }

    // UNSAT
    #[tactic(auto, unfolding(crate::specs::memory::Held::refuted_in))]
    pub fn refute(&mut self, at: &TextPosition) -> Result<(), Fault>
        ensures told { ToldStep (refuted_in (held_of self.old) (position_of at.now)) self.old result self.new }
        ensures kept { Kept self.old self.new }
        ensures same { IfErr result (λ f. self.new.live ≡ self.old.live) }
    {
        self.value_target(at, false)?;
        self.falsify(at.position.name);
        Ok(())
    }
}
