// The problem's table: predicates by the places of their names in the problem's text, their rows as numbers in lent memory.
ghost use Rattle.std.specs.Prelude.{◌≡◌, ◌<◌};
ghost use Rattle.grammar.specs.Bytes.{same};
ghost use Rattle.table.specs.memory.Table.{entry, table_name, found, among, table_numbers, Sized, with_name, with_rows};

use text::name::{Name, equal, part};
use text::size::PREDICATE_COUNT;

// A predicate: its name and arity, and of an input the place of its rows and how many there are.
#[derive(Clone, Copy)]
pub struct Predicate {
    pub name: Name,
    pub arity: u32,
    pub first: u32,
    pub rows: u32,
}

// The first predicates are the inputs, the others the outputs, in the problem's order. The room is fixed, as there is no heap. That the elements
// are few is no ghost field: a name is found, and a row held, in every table.
#[derive(Clone, Copy)]
pub struct Table {
    pub domain: u32,
    pub inputs: u32,
    pub count: u32,
    pub predicates: [Predicate; PREDICATE_COUNT],
}

impl Predicate {
    // What stands where there is no predicate. A value and no Option: what a table says is said of every index.
    pub const NONE: Predicate = Predicate {
        name: Name { start: 0, size: 0 },
        arity: 0,
        first: 0,
        rows: 0,
    };
}

impl Table {
    // The predicate at an index.
    pub fn predicate(&self, i: u32) -> Predicate
        ensures { result ≡ entry self.now i }
    {
        self.predicates
            .get(i as usize)
            .copied()
            .unwrap_or(Predicate::NONE)
    }

    // Its name.
    pub fn name<'a>(&self, text: &'a [u8], i: u32) -> &'a [u8]
        ensures { result.now ≡ table_name text.now self.now i }
    {
        self.predicate(i).name.of(text)
    }

    // Whether a predicate has a name.
    pub fn is_named(&self, text: &[u8], i: u32, name: &[u8]) -> bool
        ensures { result ≡ same name.now (table_name text.now self.now i) }
    {
        equal(name, self.name(text, i))
    }

    // The index of the predicate that has a name, if there is one.
    pub fn find(&self, text: &[u8], name: &[u8]) -> Option<u32>
        ensures { result ≡ found text.now self.now name.now }
    {
        for i in 0..self.count {
            if self.is_named(text, i, name) {
                return Some(i);
            }
        }
        None
    }

    // Whether an input predicate holds for a row, by the row's number.
    pub fn holds_row(&self, rows: &[u32], predicate: u32, key: u32) -> bool
        ensures { result ≡ among key (table_numbers self.now rows.now predicate) }
    {
        let input = self.predicate(predicate);
        part(rows, input.first as usize, input.rows as usize).contains(&key)
    }

    // With a predicate's name and arity entered at the index behind its predicates.
    pub fn with_name(&self, name: Name, arity: u32) -> Table
        requires { self.now.count < 32 }
        ensures { (result ≡ with_name self.now name arity) × Sized self.now }
    {
        let mut more = *self;
        let entry = &mut more.predicates[self.count as usize];
        entry.name = name;
        entry.arity = arity;
        more
    }

    // With the place of that predicate's rows: the name's function sets other fields, and shares no more than the entry that is set.
    pub fn with_rows(&self, first: u32, rows: u32) -> Table
        requires { self.now.count < 32 }
        ensures { (result ≡ with_rows self.now first rows) × Sized self.now }
    {
        let mut more = *self;
        let entry = &mut more.predicates[self.count as usize];
        entry.first = first;
        entry.rows = rows;
        more
    }
}
