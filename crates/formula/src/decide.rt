// Which rules fit the formula at a place, with the truth value of what has one.
ghost use Rattle.std.specs.Prelude.{◌≡◌, ◌≤◌, length, drop};
ghost use Rattle.formula.specs.memory.Deciding.{junction_fit, negation_fit, quantifier_fit, value_fit, input_fit, evaluation_fit, rule_fit};

use derivation::rule_line::Rule;
use guards::guard::Guards;
use text::size::VARIABLE_COUNT;
use words::word::{Kind, Sign, are_elements, peek};

// What a rule makes of a formula that it fits.
#[derive(Clone, Copy)]
pub enum Fit {
    // A truth value takes its place.
    Value(bool),
    // It is the `&`, if every part counts, or the `|` whose parts are simplified.
    Junction { every: bool },
    // It is the quantifier that is instantiated.
    Quantifier,
}

// SNAND for an `&`, SNOR for an `|`: `every`, as in the kind of the word.
fn junction_fit(every: bool, kind: Kind) -> Option<Fit>
    ensures { result ≡ junction_fit every kind }
{
    match kind {
        Kind::Connective {
            sign: Sign::Junction { every: side },
            ..
        } if side == every => Some(Fit::Junction { every }),
        _ => None,
    }
}

// STN: `~` of one part, which is a truth value.
fn negation_fit(kind: Kind, first: Kind) -> Option<Fit>
    ensures { result ≡ negation_fit kind first }
{
    match (kind, first) {
        (
            Kind::Connective {
                sign: Sign::Negation,
                parts: 1,
            },
            Kind::Truth(b),
        ) => Some(Fit::Value(!b)),
        _ => None,
    }
}

// IQ: a quantifier.
fn quantifier_fit(kind: Kind) -> Option<Fit>
    ensures { result ≡ quantifier_fit kind }
{
    match kind {
        Kind::Quantifier { .. } => Some(Fit::Quantifier),
        _ => None,
    }
}

// The value of an atom or equality of some terms, if they are elements. The place stays beside the guards, as their own methods take it.
#[tactic(auto, using(crate::proofs::memory::Deciding::value_tested))]
fn value_fit(guards: &Guards, at: usize, terms: u32) -> Option<Fit>
    requires { (at ≤ length guards.now.work.now) × (terms ≤ 4) }
    ensures { result ≡ value_fit guards.now.structure.now.table.now guards.now.structure.now.rows.now terms (drop at guards.now.work.now) }
{
    if !are_elements(guards.work, at + 1, terms) {
        return None;
    }
    let values = [0u8; VARIABLE_COUNT];
    Some(Fit::Value(guards.evaluate(at, 1, values)))
}

// EPRED, where some terms are asked for: an atom of one or more, or an equality. EPROP, where none are: an atom of none.
// The atom is of an input predicate. `some` is a test of the count of terms, compared as it is; an enum would be turned into it.
fn evaluation_fit(some: bool, kind: Kind, guards: &Guards, at: usize) -> Option<Fit>
    requires { at ≤ length guards.now.work.now }
    ensures { result ≡ evaluation_fit guards.now.structure.now.table.now guards.now.structure.now.rows.now some kind (drop at guards.now.work.now) }
{
    let inputs = guards.structure.table.inputs;
    match kind {
        Kind::Atom { predicate, terms } if some == (terms > 0) && predicate < inputs => {
            value_fit(guards, at, terms % 4)
        }
        Kind::Equality if some => value_fit(guards, at, 2),
        _ => None,
    }
}

// What a rule makes of the formula at a place; none where it does not fit, number 13. The rule is an enum of what was read, since a closure can't be
// handed out.
pub fn rule_fit(rule: Rule, guards: &Guards, at: usize) -> Option<Fit>
    requires { at ≤ length guards.now.work.now }
    ensures { result ≡ rule_fit guards.now.structure.now.table.now guards.now.structure.now.rows.now rule (drop at guards.now.work.now) }
{
    let kind = Kind::from(peek(guards.work, at));
    match rule {
        Rule::Snand => junction_fit(true, kind),
        Rule::Snor => junction_fit(false, kind),
        Rule::Stn => negation_fit(kind, Kind::from(peek(guards.work, at + 1))),
        Rule::Epred => evaluation_fit(true, kind, guards, at),
        Rule::Eprop => evaluation_fit(false, kind, guards, at),
        Rule::Iq => quantifier_fit(kind),
    }
}
