// The numbers that stand in a text one after the other, each with one byte behind it.
ghost use Rattle.std.specs.Prelude.{◌≡◌};
ghost use Rattle.std.specs.Iterator.{YieldsFirst, item_count};
ghost use Rattle.text.specs.memory.Numbers.{numbers_at};
ghost use Rattle.text.specs.memory.Listed.{numbers_left};

use crate::number::{Numbers, digits_at};
use crate::read::Read;

// The numbers that are left, in their text.
#[derive(Drop)]
pub struct Listed<'a> {
    text: &'a [u8],
    left: Numbers,
}

impl Numbers {
    pub fn of<'a>(self, text: &'a [u8]) -> Listed<'a>
        ensures { numbers_left result ≡ numbers_at text.now self.at self.many }
    {
        Listed { text, left: self }
    }
}

impl<'a> Iterator for Listed<'a> {
    type Item = u32;

    ghost next_gives = { YieldsFirst numbers_left };

    ghost remaining = { item_count numbers_left };

    // The place stops at the largest number: behind the end of a text every place has the same numbers.
    #[tactic(auto, using(crate::proofs::NumberPlaces::counted))]
    fn next(&mut self) -> Option<u32> {
        self.left.many = self.left.many.checked_sub(1)?;
        let Read { value, next } = digits_at(self.text, self.left.at);
        self.left.at = next.saturating_add(1);
        Some(value)
    }
}
