// What a line of a derivation, or its end, is refused with.
ghost use Rattle.std.specs.Prelude.{◌≡◌};
ghost use Rattle.steps.specs.memory.Fault.{number};

// A fault, by its number in the statement.
#[derive(Clone, Copy, Debug, PartialEq, Eq)]
pub enum Fault {
    // It is no line of a derivation.
    Malformed = 10,
    // No live formula has the name, or names do not climb.
    Name = 11,
    // The path leads to no formula.
    Path = 12,
    // The rule does not fit.
    Rule = 13,
    // Another variable is free in the guard.
    Guard = 14,
    // The theory is too large.
    Size = 15,
    // The footer lists other names.
    Footer = 16,
    // A final formula is no ground clause.
    Clause = 17,
}

impl Fault {
    // A method and no `From`: `fault.number()` says what the number is, and `u32::from(fault)` does not.
    pub fn number(self) -> u32
        ensures { result ≡ number self }
    {
        self as u32
    }
}
