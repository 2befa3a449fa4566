// Why a problem's text is refused.
ghost use Rattle.std.specs.Prelude.{◌≡◌};

// By the statement's numbers: a line that is not spelled as one, or a value that may not stand.
#[derive(Clone, Copy, PartialEq, Eq, Debug)]
pub enum Fault {
    Malformed = 3,
    Unfit = 4,
}

impl Fault {
    ghost use Rattle.problem.specs.memory.Faults.{fault_number};

    // A method and no `From`: `fault.number()` says what the number is, and `u32::from(fault)` does not.
    pub fn number(self) -> u32
        ensures { result ≡ fault_number self }
    {
        self as u32
    }
}
