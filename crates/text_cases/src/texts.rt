// The files of data/ that hold texts, and what is done with each text.
use crate::problems::ROWS;
use crate::{headings, problems, refused};
use casefile::texts::Sections;
use std::io::Result;
use std::rt::Files;

// Does something with each text of a file, by its name and its bytes.
fn each<F: FnMut(&[u8], &[u8]) -> Result<()>>(
    rt: &impl Files,
    path: &[u8],
    mut one: F,
) -> Result<()>
    requires { F.IsAlwaysCallable one }
{
    let mut room = io::large_buffer();
    for section in Sections::of(casefile::load(rt, path, &mut room)) {
        one(section.name, section.text)?;
    }
    Ok(())
}

// What stood in the rows before is not cleared: it must not matter.
pub fn run(rt: &(impl Files + Print)) -> Result<()> {
    let mut rows = [0; ROWS];
    each(rt, b"headings", |name, text| headings::one(rt, name, text))?;
    each(
        rt,
        b"problems",
        |name, text| problems::one(rt, name, text, &mut rows),
    )?;
    each(
        rt,
        b"edges",
        |name, text| problems::one(rt, name, text, &mut rows),
    )?;
    each(rt, b"refused", |name, text| refused::one(rt, name, text))
}
