// The input structure.
ghost use Rattle.std.specs.Prelude.{◌≡◌};
ghost use Rattle.text.specs.memory.Sizes.{FewElements};

use crate::table::Table;

// The problem's table, and its rows in lent memory.
#[derive(Clone, Copy)]
pub struct Structure<'a> {
    pub table: &'a Table,
    pub rows: &'a [u32],
    ghost few: { FewElements table.now.domain },
}

impl Structure<'_> {
    ghost use Rattle.table.specs.memory.Table.{among, table_numbers};

    // Whether an input predicate holds for a row, by the row's number.
    pub fn holds(&self, predicate: u32, key: u32) -> bool
        ensures { result ≡ among key (table_numbers self.now.table.now self.now.rows.now predicate) }
    {
        self.table.holds_row(self.rows, predicate, key)
    }
}
