// Working memory, cleared.
ghost use Rattle.std.specs.Prelude.{◌≡◌, ◌++◌, ◌≤◌, length, drop, replicate};

// The first numbers are zero, and the rest as they were.
pub fn clear(work: &mut [u32], count: usize)
    requires { count ≤ length work.old }
    ensures { work.new ≡ replicate count 0 ++ drop count work.old }
{
    work[..count].fill(0);
}
