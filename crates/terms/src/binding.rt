// The variables bound around a formula, by the places of their names in the theory's text.
use text::name::{Name, equal};
use text::size::LEVEL_COUNT;

// What stands where there is no name. A value and no Option: whether a name is bound is said of every count.
const NONE: Name = Name { start: 0, size: 0 };

// The first so many names: at most 32, since each takes a level. The room is fixed, as there is no heap.
#[derive(Clone, Copy)]
pub struct Scope {
    pub count: u32,
    pub names: [Name; LEVEL_COUNT],
}

impl Scope {
    ghost use Rattle.std.specs.Prelude.{◌≡◌, ◌<◌};
    ghost use Rattle.terms.specs.memory.Bindings.{scope_name, bound_in, Binds};

    // No variable.
    pub fn new() -> Scope
        ensures { result.count ≡ 0 }
    {
        Scope {
            count: 0,
            names: [NONE; LEVEL_COUNT],
        }
    }

    // One variable more.
    pub fn with(&self, name: Name) -> Scope
        requires { self.now.count < 32 }
        ensures { Binds self.now name result }
    {
        let mut more = *self;
        more.names[self.count as usize] = name;
        more.count += 1;
        more
    }

    // The name at an index.
    fn name<'a>(&self, text: &'a [u8], i: u32) -> &'a [u8]
        ensures { result.now ≡ scope_name text.now self.now i }
    {
        self.names.get(i as usize).copied().unwrap_or(NONE).of(text)
    }

    // Whether a name is one of them, looked for from the last on.
    pub fn binds(&self, text: &[u8], name: &[u8]) -> bool
        ensures { result ≡ bound_in text.now self.now name.now }
    {
        (0..self.count)
            .rev()
            .any(|i| equal(name, self.name(text, i)))
    }
}
