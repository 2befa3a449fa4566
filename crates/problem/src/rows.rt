// The rows of an input predicate: read, judged, and stored as one number each.
#![tactic(auto, using(crate::proofs::RelationPlaces::told))]

ghost use Rattle.std.specs.Prelude.{◌≡◌, ◌+◌, ◌≤◌, ◌<◌, length, IfSome};
ghost use Rattle.text.specs.memory.Sizes.{FewElements, FewTerms};
ghost use Rattle.table.specs.memory.Table.{placed};

use crate::end::line_closed;
use crate::fault::Fault;
use text::byte::{begins_at, peek};
use text::cell::set;
use text::number::number_at;
use text::read::Read;
use text::size::TUPLE_COUNT;

// Elements that can be a row: how many, the row's number, and the elements read as digits.
#[derive(Clone, Copy)]
pub struct RowKept {
    pub size: u32,
    pub key: u32,
    pub rank: u32,
}

// Rows that may stand: how many, and the rank of the last; 0 before the first, since every rank is 1 or more, and one comparison tells both.
#[derive(Clone, Copy)]
pub struct RowsKept {
    pub count: u32,
    pub last: u32,
}

// What is kept of a relation that was read: a truth value, or rows, where they may stand.
#[derive(Clone, Copy)]
pub enum RelationKept {
    Truth(bool),
    Listed(Option<RowsKept>),
}

// An input that awaits its rows: its arity, the domain, the tuples of the inputs before it, and the place to store its rows from.
#[derive(Clone, Copy)]
pub struct Awaited {
    pub arity: u32,
    pub domain: u32,
    pub total: u32,
    pub to: usize,
    ghost short: { FewTerms arity },
    ghost small: { FewElements domain },
    ghost room: { total ≤ 1024 },
    ghost near: { to ≤ 2048 },
}

// What an element adds to a row's number, at its place.
#[tactic(auto, unfolding(table::specs::memory::Table::placed))]
fn placed_at(place: u32, v: u32) -> u32
    requires { (place ≤ 2) × (v ≤ 64) }
    ensures { (result ≡ placed place v) × (result ≤ 4194304) }
{
    match place {
        0 => v,
        1 => v * 256,
        _ => v * 65536,
    }
}

impl Awaited {
    ghost use Rattle.problem.specs.memory.Rows.{read_some, read_kind, RowBounded, RowMore, ToldElement, ToldTuple};
    ghost use Rattle.problem.specs.memory.Rows.{RowsBounded, RowsMore, ToldTuples, ToldRelation, RowsGiven, ToldRowsRead};
    ghost use Rattle.grammar.specs.Problem.{read_tuples, read_relation};

    // A row with one element more; an element too large to be told is none.
    fn extended(&self, row: Option<RowKept>, element: Option<u32>) -> Option<RowKept>
        requires { RowBounded row }
        ensures { RowMore self.now.domain element row result }
    {
        let RowKept { size, key, rank } = row?;
        let v = element?;
        if size > 2 || v < 1 || v > self.domain {
            return None;
        }
        Some(RowKept {
            size: size + 1,
            key: key + placed_at(size, v),
            rank: rank * 256 + v,
        })
    }

    // One element more is read. Text, place and memory stay parameters: each call has another place, and the rows are lent for the call.
    fn element_at(
        &self,
        text: &[u8],
        at: usize,
        row: Option<RowKept>,
    ) -> Option<Read<Option<RowKept>>>
        requires { (at ≤ length text.now) × RowBounded row }
        ensures { ToldElement self.now.domain row text.now at result }
    {
        let Read { value, next } = number_at(text, at)?;
        Some(Read {
            value: self.extended(row, value),
            next,
        })
    }

    // A tuple, of any length.
    fn tuple_at(&self, text: &[u8], at: usize) -> Option<Read<Option<RowKept>>>
        requires { at ≤ length text.now }
        ensures { ToldTuple self.now.domain text.now at result }
    {
        let mut row = Some(RowKept {
            size: 0,
            key: 0,
            rank: 0,
        });
        let mut i = at;
        // Goes on by places: whether an element follows is known once this one is read.
        loop {
            let read = self.element_at(text, i, row)?;
            if peek(text, read.next) != b'.' {
                return Some(read);
            }
            row = read.value;
            i = read.next + 1;
        }
    }

    // Rows with one row more: it has to fit the arity, to come behind the last, and to find room.
    fn kept(
        &self,
        before: Option<RowsKept>,
        row: Option<RowKept>,
        rows: &mut [u32],
    ) -> Option<RowsKept>
        requires { RowsBounded before }
        ensures { RowsMore self.now row before result rows.old rows.new }
    {
        let RowsKept { count, last } = before?;
        let RowKept { size, key, rank } = row?;
        if size != self.arity || rank <= last || self.total + count >= TUPLE_COUNT {
            return None;
        }
        set(rows, self.to + count as usize, key);
        Some(RowsKept {
            count: count + 1,
            last: rank,
        })
    }

    // Tuples, one at least. This loop and that of `tuple_at` are not one function with a closure for the item: of a closure that stores
    // as it reads nothing would be known of what it stored.
    fn tuples_at(&self, text: &[u8], at: usize, rows: &mut [u32]) -> Option<Read<Option<RowsKept>>>
        requires { at ≤ length text.now }
        ensures { ToldTuples read_some self.now rows.old rows.new text.now at result }
    {
        let mut before = Some(RowsKept { count: 0, last: 0 });
        let mut i = at;
        loop {
            let Read { value, next } = self.tuple_at(text, i)?;
            let after = self.kept(before, value, rows);
            if peek(text, next) != b',' {
                return Some(Read { value: after, next });
            }
            before = after;
            i = next + 1;
        }
    }

    // Tuples; none, where the line ends.
    fn listed_at(&self, text: &[u8], at: usize, rows: &mut [u32]) -> Option<Read<Option<RowsKept>>>
        requires { at ≤ length text.now }
        ensures { ToldTuples read_tuples self.now rows.old rows.new text.now at result }
    {
        if peek(text, at) == b'\n' {
            return Some(Read {
                value: Some(RowsKept { count: 0, last: 0 }),
                next: at,
            });
        }
        self.tuples_at(text, at, rows)
    }

    // A relation, as it stands between `rows=` and the line's end.
    fn kind_at(&self, text: &[u8], at: usize, rows: &mut [u32]) -> Option<Read<RelationKept>>
        requires { at ≤ length text.now }
        ensures { ToldRelation read_kind self.now rows.old rows.new text.now at result }
    {
        if begins_at(text, at, b"true") {
            return Some(Read {
                value: RelationKept::Truth(true),
                next: at + 4,
            });
        }
        if begins_at(text, at, b"false") {
            return Some(Read {
                value: RelationKept::Truth(false),
                next: at + 5,
            });
        }
        let Read { value, next } = self.listed_at(text, at, rows)?;
        Some(Read {
            value: RelationKept::Listed(value),
            next,
        })
    }

    // A `rows=` line.
    fn relation_at(&self, text: &[u8], at: usize, rows: &mut [u32]) -> Option<Read<RelationKept>>
        requires { at ≤ length text.now }
        ensures read { ToldRelation read_relation self.now rows.old rows.new text.now at result }
        ensures after { IfSome result (λ r. at < r.next) }
    {
        if !begins_at(text, at, b"rows=") {
            return None;
        }
        let Read { value, next } = self.kind_at(text, at + 5, rows)?;
        let next = line_closed(text, next)?;
        Some(Read { value, next })
    }

    // How many rows a relation gives, stored, if it may stand: for arity 0 `true` is the one empty row, whose number is 0.
    fn rows_of(&self, relation: RelationKept, rows: &mut [u32]) -> Option<u32>
        ensures { RowsGiven self.now relation rows.old rows.new result }
    {
        match relation {
            RelationKept::Truth(value) => {
                if self.arity != 0 {
                    return None;
                }
                if value {
                    set(rows, self.to, 0);
                    return Some(1);
                }
                Some(0)
            }
            RelationKept::Listed(kept) => {
                if self.arity == 0 {
                    return None;
                }
                Some(kept?.count)
            }
        }
    }

    // The rows, read and stored: how many they are.
    pub fn rows_at(&self, text: &[u8], at: usize, rows: &mut [u32]) -> Result<Read<u32>, Fault>
        requires { at ≤ length text.now }
        ensures { ToldRowsRead self.now rows.old rows.new text.now at result }
    {
        let Read { value, next } = self.relation_at(text, at, rows).ok_or(Fault::Malformed)?;
        let value = self.rows_of(value, rows).ok_or(Fault::Unfit)?;
        Ok(Read { value, next })
    }
}
