// What is told of a formula, or of formulas, as they are read: all that numbers 7, 8 and 9 ask of it.
ghost use Rattle.std.specs.Prelude.{◌≡◌, true, ◌≤◌};
ghost use Rattle.words.specs.memory.Stored.{side_of, connective_of};
ghost use Rattle.terms.specs.memory.Facts.{simple_facts, beside, with_form, connective_facts, quantified, quantifier_facts};

use words::word::Sign;

#[derive(Clone, Copy)]
pub struct Facts {
    // Every predicate is known with its arity, every element is in the domain, every variable is bound.
    pub named: bool,
    // A truth value, an atom or an equality.
    pub simple: bool,
    // In disjunctive form, and in GNF.
    pub disjunctive: bool,
    pub normal: bool,
    // Its predicates are all input predicates.
    pub inputs: bool,
    // The most quantifiers on a path, and on a path inside a guard.
    pub quantifiers: u32,
    pub guarded: u32,
}

impl Facts {
    // Of a truth value, an atom or an equality; or of no formulas.
    pub fn simple(named: bool, inputs: bool) -> Facts
        ensures { result ≡ simple_facts named inputs }
    {
        Facts {
            named,
            simple: true,
            disjunctive: true,
            normal: true,
            inputs,
            quantifiers: 0,
            guarded: 0,
        }
    }

    // Of formulas and others behind them.
    pub fn beside(self, others: Facts) -> Facts
        ensures { result ≡ beside self others }
    {
        Facts {
            named: self.named && others.named,
            simple: self.simple && others.simple,
            disjunctive: self.disjunctive && others.disjunctive,
            normal: self.normal && others.normal,
            inputs: self.inputs && others.inputs,
            quantifiers: self.quantifiers.max(others.quantifiers),
            guarded: self.guarded.max(others.guarded),
        }
    }

    fn with_form(self, disjunctive: bool, normal: bool) -> Facts
        ensures { result ≡ with_form self disjunctive normal }
    {
        Facts {
            simple: false,
            disjunctive,
            normal,
            ..self
        }
    }

    // Of a connective, by what is told of its parts.
    pub fn of_connective(sign: Sign, parts: Facts) -> Facts
        ensures { result ≡ connective_facts (connective_of sign) parts }
    {
        match sign {
            Sign::Negation => parts.with_form(parts.simple, parts.simple),
            Sign::Implies | Sign::ImpliedBy | Sign::Equivalent => parts.with_form(false, false),
            Sign::Junction { every: true } => parts.with_form(false, parts.normal),
            Sign::Junction { every: false } => parts.with_form(
                parts.disjunctive,
                parts.disjunctive,
            ),
        }
    }

    fn quantified(guard: Facts, body: Facts, disjunctive: bool, normal: bool) -> Facts
        requires { (guard.quantifiers ≤ 65536) × (body.quantifiers ≤ 65536) }
        ensures { result ≡ quantified guard body disjunctive normal }
    {
        Facts {
            named: guard.named && body.named,
            simple: false,
            disjunctive,
            normal,
            inputs: guard.inputs && body.inputs,
            quantifiers: guard.quantifiers.max(body.quantifiers) + 1,
            guarded: guard.quantifiers.max(body.guarded),
        }
    }

    // Of a quantifier, by what is told of its guard and its body.
    pub fn of_quantifier(every: bool, guard: Facts, body: Facts) -> Facts
        requires { (guard.quantifiers ≤ 65536) × (body.quantifiers ≤ 65536) }
        ensures { result ≡ quantifier_facts (side_of every) guard body }
    {
        if every {
            return Facts::quantified(guard, body, false, guard.inputs && body.normal);
        }
        let form = guard.inputs && body.disjunctive;
        Facts::quantified(guard, body, form, form)
    }
}
