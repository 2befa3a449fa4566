// What the programs of cases share: the texts of a file of data/, and what a text writes in short.
#![tactic(auto)]

pub mod texts;
pub mod written;

ghost use Rattle.std.specs.Prelude.{◌≤◌, length};

use std::rt::Files;

// A file of data/, as far as the room holds it; nothing, where it can't be opened.
pub fn load<'a>(rt: &impl Files, path: &[u8], room: &'a mut [u8]) -> &'a [u8]
    ensures { length result.now ≤ length room.old }
{
    files::load(rt, path, room).unwrap_or_else(|unread| unread.part)
}
