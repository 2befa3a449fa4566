// The file `refused`: the lines that are handed back of each text.
use std::io::Result;
use text::line::refused_line;

// Line 0, the first ones, and some that no text has.
const LINES: [usize; 7] = [0, 1, 2, 3, 4, 65537, 4294967297];

pub fn one(rt: &impl Print, name: &[u8], text: &[u8]) -> Result<()> {
    for line in LINES {
        rt.write_all(name)?;
        print!(rt; " line {line}: [")?;
        rt.write_all(refused_line(text, line))?;
        println!(rt; "]")?;
    }
    Ok(())
}
