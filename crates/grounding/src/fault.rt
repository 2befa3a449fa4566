// Why there is no ground theory: which of the texts is refused, for what, and at which line.
ghost use Rattle.std.specs.Prelude.{◌≡◌};
ghost use Rattle.grounding.specs.memory.Faults.{number_of, file_of};

// What a text is refused for: 3 and 4 for the problem, 5 to 9 for the theory, 10 to 17 for the derivation.
#[derive(Clone, Copy, PartialEq, Eq, Debug)]
pub enum Fault {
    Problem(problem::fault::Fault),
    Theory(reading::fault::Fault),
    Derivation(steps::fault::Fault),
}

impl Fault {
    // A method and no `From`: `fault.number()` says what the number is, and `u32::from(fault)` does not.
    pub fn number(self) -> u32
        ensures { result ≡ number_of self }
    {
        match self {
            Fault::Problem(fault) => fault.number(),
            Fault::Theory(fault) => fault.number(),
            Fault::Derivation(fault) => fault.number(),
        }
    }

    // The statement's number of the file, by a method as the fault's own number.
    pub fn file(self) -> u32
        ensures { result ≡ file_of self }
    {
        match self {
            Fault::Problem(_) => 1,
            Fault::Theory(_) => 2,
            Fault::Derivation(_) => 3,
        }
    }
}

#[derive(Clone, Copy, PartialEq, Eq, Debug)]
pub struct Refusal {
    pub fault: Fault,
    pub line: u32,
}
