// Names of formulas: the live ones in lent memory, new ones and the footer's in the derivation's text.
ghost use Rattle.std.specs.Prelude.{◌≡◌, ◌++◌, ◌+◌, ◌^◌, ◌≤◌, ◌<◌, length, drop};
ghost use Rattle.grammar.specs.Bytes.{same};
ghost use Rattle.logic.specs.Meaning.{count_from};
ghost use Rattle.text.specs.memory.Numbers.{numbers_at};
ghost use Rattle.words.specs.memory.Storing.{Stores, spliced, Rewritten, Roomy, Fronted};
ghost use Rattle.names.specs.memory.Names.{ToldIndex, ToldClimb};

use text::number::Numbers;
use words::store::{copy, put};

// Where a name stands in a list of memory, if it does.
pub fn index_of(list: &[u32], name: u32) -> Option<usize>
    ensures { ToldIndex name list.now result }
{
    list.iter().position(|held| *held == name)
}

// The last of some names of a text, if each is greater than every name before it, from the greatest used on. Text and names stand side by side, here
// and below: the names come from a line, which has no text, and each function goes through them once.
pub fn climbs(text: &[u8], names: Numbers, top: u32) -> Option<u32>
    ensures { ToldClimb top (numbers_at text.now names.at names.many) result }
{
    let mut greatest = top;
    for name in names.of(text) {
        if name <= greatest {
            return None;
        }
        greatest = name;
    }
    Some(greatest)
}

// Whether some names of a text are just those of a list of memory.
pub fn are_listed(text: &[u8], names: Numbers, list: &[u32]) -> bool
    ensures { result ≡ same (numbers_at text.now names.at names.many) list.now }
{
    names.many == list.len() && names.of(text).eq(list.iter().copied())
}

// Numbers of a text are stored one after the other, where there is room; the place behind them.
#[tactic(auto, using(text::proofs::NumberPlaces::counted))]
fn put_numbers(list: &mut [u32], to: usize, text: &[u8], numbers: Numbers) -> usize
    requires { to + numbers.many < 2 ^ 64 }
    ensures { Stores list.old to (numbers_at text.now numbers.at numbers.many) result list.new }
{
    let mut next = to;
    for number in numbers.of(text) {
        next = put(list, next, number);
    }
    next
}

// A list with some names of a text for the one at `index`, made `spare` behind it.
fn names_behind(
    list: &mut [u32],
    index: usize,
    count: usize,
    spare: usize,
    text: &[u8],
    names: Numbers,
) -> usize
    requires { Roomy list.old index count spare × (count + names.many ≤ spare + 1) }
    ensures { Rewritten list.old index (index + 1) count spare (numbers_at text.now names.at names.many) result list.new }
{
    let here = copy(list, 0, index, spare);
    let behind = put_numbers(list, here, text, names);
    copy(list, index + 1, count, behind) - spare
}

// The same list, copied to the front.
pub fn with_names(
    list: &mut [u32],
    index: usize,
    count: usize,
    spare: usize,
    text: &[u8],
    names: Numbers,
) -> usize
    requires { Roomy list.old index count spare × (count + names.many ≤ spare + 1) }
    ensures { Fronted (spliced list.old index (index + 1) count (numbers_at text.now names.at names.many)) spare result list.new × (result ≤ spare) }
{
    let total = names_behind(list, index, count, spare, text, names);
    copy(list, spare, spare + total, 0);
    total
}

// The names 1, 2, 3 and so on, at the front of a list.
#[tactic(auto, using(crate::proofs::NameLists::first_more))]
pub fn put_first(list: &mut [u32], count: usize)
    requires { (count ≤ length list.old) × (count ≤ 65535) }
    ensures { list.new ≡ count_from 1 count ++ drop count list.old }
{
    for i in 0..count {
        list[i] = i as u32 + 1;
    }
}
