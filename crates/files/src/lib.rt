// A file, read into lent memory.
#![tactic(auto)]

ghost use Rattle.std.specs.Prelude.{◌≤◌, length, IfOk, IfErr};

use std::fs;
use std::io::Read;
use std::rt::Files;

// A file that can't be opened, or not be read to its end, as a folder: what was read of it before.
#[derive(Clone, Copy)]
pub struct Unread<'a> {
    pub part: &'a [u8],
}

// How much is read until the room is full, the file ends or a read fails; how much before a read that fails.
fn fill(file: &mut impl Read, room: &mut [u8]) -> Result<usize, usize>
    ensures whole { IfOk result (λ size. size ≤ length room.new) }
    ensures part { IfErr result (λ size. size ≤ length room.new) }
{
    let mut size: usize = 0;
    // A loop by hand: what std reads to the end goes to the heap, and the project has none.
    while size < room.len() {
        match file.read(&mut room[size..]) {
            Ok(0) => return Ok(size),
            Ok(more) => size += more,
            Err(_) => return Err(size),
        }
    }
    Ok(size)
}

// What the file at a path says, as far as the room holds it.
pub fn load<'a>(rt: &impl Files, path: &[u8], room: &'a mut [u8]) -> Result<&'a [u8], Unread<'a>>
    ensures whole { IfOk result (λ text. length text.now ≤ length room.old) }
    ensures part { IfErr result (λ unread. length unread.part.now ≤ length room.old) }
{
    let Ok(name) = str::from_utf8(path) else {
        return Err(Unread { part: &room[..0] });
    };
    let Ok(mut file) = fs::open(rt, name) else {
        return Err(Unread { part: &room[..0] });
    };
    match fill(&mut file, room) {
        Ok(size) => Ok(&room[..size]),
        Err(size) => Err(Unread {
            part: &room[..size],
        }),
    }
}
