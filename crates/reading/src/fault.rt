// What a line of the theory's text is refused for.
ghost use Rattle.std.specs.Prelude.{◌≡◌};
ghost use Rattle.reading.specs.memory.Faults.{number_of};

// By the statement's numbers.
#[derive(Clone, Copy, PartialEq, Eq, Debug)]
pub enum Fault {
    // The line is not the text of a formula.
    Malformed = 5,
    // A formula of level 33 begins in it.
    Deep = 6,
    // A predicate, an element or a variable is not known where it stands.
    Unnamed = 7,
    // The formula is not in GNF.
    Unnormal = 8,
    // The theory up to the line passes a limit.
    Over = 9,
}

impl Fault {
    // A method and no `From`: `fault.number()` says what the number is, and `u32::from(fault)` does not.
    pub fn number(self) -> u32
        ensures { result ≡ number_of self }
    {
        self as u32
    }
}
