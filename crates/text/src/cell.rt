// A place of lent memory, set where there is room.
ghost use Rattle.std.specs.Prelude.{◌≡◌, set};

pub fn set<T: Copy + Drop>(cells: &mut [T], at: usize, value: T)
    ensures { cells.new ≡ set cells.old at value }
{
    if at < cells.len() {
        cells[at] = value;
    }
}
