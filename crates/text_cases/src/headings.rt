// The file `headings`: the beginning of a derivation, as the size of its heading, or 10 and the line that is malformed.
use derivation::reader::Reader;
use std::io::Result;

pub fn one(rt: &impl Print, name: &[u8], text: &[u8]) -> Result<()> {
    rt.write_all(name)?;
    let mut reader = Reader::new(text);
    if reader.version().is_some() && reader.grounder().is_some() {
        println!(rt; ": heading of {}", reader.at)
    } else {
        println!(rt; ": 10 at line {}", reader.line)
    }
}
