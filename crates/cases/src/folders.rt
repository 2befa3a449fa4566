// Folders as the desk gets them: each that folders/list names is checked by its four files, and what the desk prints follows its name.
use casefile::written;
use std::io::Result;
use std::rt::Files;

// The path of a folder's file.
fn path<'a>(folder: &[u8], file: &[u8], room: &'a mut [u8]) -> &'a [u8] {
    let mut size = 0;
    for word in [b"folders/", folder, b"/", file] {
        size += written::text(word, word.len(), &mut room[size..]);
    }
    &room[..size]
}

fn one(rt: &(impl Files + Print), folder: &[u8]) -> Result<()> {
    let mut problem = io::buffer();
    let mut theory = io::buffer();
    let mut derivation = io::buffer();
    let mut claim = io::buffer();
    rt.write_all(b"folder ")?;
    rt.write_all(folder)?;
    rt.write_all(b"\n")?;
    desk::check_files(
        rt,
        path(folder, b"problem.fox", &mut problem),
        path(folder, b"theory.fox", &mut theory),
        path(folder, b"proof.fox", &mut derivation),
        path(folder, b"claim.fox", &mut claim),
    )
}

// Each folder that a list names, one on a line. `runs::all` goes through its list alike.
pub fn all(rt: &(impl Files + Print)) -> Result<()> {
    let mut room = io::buffer();
    let list = casefile::load(rt, b"folders/list", &mut room);
    for line in list.split_inclusive(|b| *b == b'\n') {
        one(rt, line.strip_suffix(b"\n").unwrap_or(line))?;
    }
    Ok(())
}
