// The variables' table: the places of their names in the theory's text, in the order in which they first come. A theory may have 64 variables; there
// is room for one more, so that it is told when there are too many.
use text::name::{Name, equal, part};
use text::size::{MOST_VARIABLES, NAME_SIZE, VARIABLE_COUNT};

// Names that the table has room for.
const ROOM: usize = VARIABLE_COUNT + 1;

// The room is fixed, as there is no heap.
#[derive(Clone, Copy)]
pub struct NameTable {
    pub count: u32,
    pub names: [Name; ROOM],
}

impl NameTable {
    ghost use Rattle.std.specs.Prelude.{◌≡◌, leb, length, position, take};
    ghost use Rattle.std.specs.List.{list_all};
    ghost use Rattle.grammar.specs.Sizes.{name_size};
    ghost use Rattle.grammar.specs.Bytes.{same};
    ghost use Rattle.table.specs.memory.Table.{name_at};
    ghost use Rattle.terms.specs.memory.NameTable.{names_in, HasAdded, NameListed, list_fits};

    // No name. A scope begins alike; the two share no more than this, since a scope is copied where a variable is bound, and the table grows in place
    // and tells indices, so that one type with a const parameter would be no plainer.
    pub fn new() -> NameTable
        ensures { result.count ≡ 0 }
    {
        NameTable {
            count: 0,
            names: [Name { start: 0, size: 0 }; ROOM],
        }
    }

    // The names' places: as many as are counted and there is room for.
    fn listed(&self) -> &[Name]
        ensures { result.now ≡ take self.now.count self.now.names }
    {
        part(&self.names, 0, self.count as usize)
    }

    // The index of a name, if the table has it.
    fn find(&self, text: &[u8], name: &[u8]) -> Option<usize>
        ensures { result ≡ position (λ place. same name.now (name_at text.now place)) (take self.now.count self.now.names) }
    {
        self.listed()
            .iter()
            .position(|listed| equal(name, listed.of(text)))
    }

    // The index behind the others, where a name is put if there is room. The index 65 tells that there is none: `fit` then says no.
    fn add(&mut self, name: Name) -> u32
        ensures { HasAdded name self.old self.new result }
    {
        let index = self.count.min(ROOM as u32);
        if (index as usize) < ROOM {
            self.names[index as usize] = name;
            self.count += 1;
        }
        index
    }

    // The index of a name, which is put into the table if it is new and there is room.
    pub fn list(&mut self, text: &[u8], name: Name) -> u32
        ensures { NameListed text.now (name_at text.now name) self.old self.new result }
    {
        match self.find(text, name.of(text)) {
            Some(index) => index as u32,
            None => self.add(name),
        }
    }

    // Whether each of the names is short enough for a theory.
    #[tactic(auto, unfolding(grammar::specs::Sizes::name_size))]
    fn are_short(&self, text: &[u8]) -> bool
        ensures { result ≡ list_all (λ place. leb (length (name_at text.now place)) name_size) (take self.now.count self.now.names) }
    {
        self.listed()
            .iter()
            .all(|name| name.of(text).len() <= NAME_SIZE)
    }

    // Whether the names are few and short enough for a theory.
    pub fn fit(&self, text: &[u8]) -> bool
        ensures { result ≡ list_fits (names_in text.now self.now) }
    {
        self.count <= MOST_VARIABLES && self.are_short(text)
    }
}
