// What is kept for each variable, by its index: a flag, or a value.
ghost use Rattle.std.specs.Prelude.{◌≡◌, ◌%◌, set};

use text::size::{MOST_VARIABLES, VARIABLE_COUNT};

// The index of a variable, whatever number stands for it.
pub fn index(variable: u32) -> usize
    ensures { result ≡ variable % 64 }
{
    (variable % MOST_VARIABLES) as usize
}

// What is kept, with something else for one variable.
pub fn with<T: Copy>(kept: [T; VARIABLE_COUNT], variable: u32, one: T) -> [T; VARIABLE_COUNT]
    ensures { result ≡ set kept (variable % 64) one }
{
    let mut more = kept;
    more[index(variable)] = one;
    more
}
