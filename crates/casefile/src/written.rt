// A text as a file of data/ writes it: as it is, but for what begins with `\`. A `\` at the end of a line leaves out the LF; `\x0d` is
// the byte 13, `\{3*ab}` is `ababab`, `\{2..5}` is `2,3,4,5`; `\` before any other byte is that byte.
ghost use Rattle.std.specs.Prelude.{◌≤◌, ◌<◌, length, IfOk};

use std::io::{ErrorKind, Result, Write};
use text::byte::peek;
use text::number::digits_at;

// A room that is written from its beginning on. By hand: the library's `Cursor` has a loop and a copy for each byte.
#[derive(Drop)]
struct Written<'a> {
    room: &'a mut [u8],
    size: usize,
    ghost within: { size ≤ length room.now },
}

impl Write for Written<'_> {
    fn write(&mut self, buf: &[u8]) -> Result<usize> {
        let many = buf.len().min(self.room.len() - self.size);
        self.room[self.size..self.size + many].copy_from_slice(&buf[..many]);
        self.size += many;
        Ok(many)
    }

    fn flush(&mut self) -> Result<()> {
        Ok(())
    }

    // The test stands before the copy, so that a single byte is a store.
    fn write_all(&mut self, buf: &[u8]) -> Result<()> {
        if self.room.len() - self.size < buf.len() {
            let _ = self.write(buf)?;
            return Err(ErrorKind::WriteZero.into());
        }
        self.room[self.size..self.size + buf.len()].copy_from_slice(buf);
        self.size += buf.len();
        Ok(())
    }
}

// What is left behind the first bytes.
fn behind(rest: &[u8], many: usize) -> &[u8]
    ensures { length result.now ≤ length rest.now }
{
    rest.get(many..).unwrap_or(&[])
}

// The numbers from the first to the last, with commas between them; the first alone, where the last is not behind it.
fn put_numbers(first: u32, last: u32, out: &mut impl Write) -> Result<()> {
    for n in first..=last.max(first) {
        if n > first {
            out.write_all(b",")?;
        }
        write!(out, "{n}")?;
    }
    Ok(())
}

// A part so many times, byte by byte, as most are short; an empty one takes no turn.
fn put_parts(part: &[u8], count: u32, out: &mut impl Write) -> Result<()> {
    if part.is_empty() {
        return Ok(());
    }
    for _ in 0..count {
        for b in part {
            out.write_all(&[*b])?;
        }
    }
    Ok(())
}

// What stands behind `\{`; what is left behind the next `}`.
fn braced<'a>(rest: &'a [u8], out: &mut impl Write) -> Result<&'a [u8]>
    ensures { IfOk result (λ left. length left.now ≤ length rest.now) }
{
    let first = digits_at(rest, 0);
    let end = rest.iter().position(|b| *b == b'}').unwrap_or(rest.len());
    let from = first.next.saturating_add(1);
    if peek(rest, first.next) == b'*' {
        let part = rest[..end].get(from..).unwrap_or(&[]);
        put_parts(part, first.value, out)?;
    } else {
        let last = digits_at(rest, from.saturating_add(1));
        put_numbers(first.value, last.value, out)?;
    }
    Ok(behind(rest, end + 1))
}

// A digit from 0 to f. By hand: the library's takes capitals too, which are 0 here.
fn hex(b: u8) -> u8
    ensures { result ≤ 15 }
{
    match b {
        b'0'..=b'9' => b - b'0',
        b'a'..=b'f' => b - b'a' + 10,
        _ => 0,
    }
}

// What stands behind `\`; what is left behind it.
fn escaped<'a>(rest: &'a [u8], out: &mut impl Write) -> Result<&'a [u8]>
    ensures { IfOk result (λ left. length left.now ≤ length rest.now) }
{
    let next = behind(rest, 1);
    match peek(rest, 0) {
        b'{' => return braced(next, out),
        b'\n' => {}
        b'x' => {
            out.write_all(&[hex(peek(next, 0)) * 16 + hex(peek(next, 1))])?;
            return Ok(behind(next, 2));
        }
        b => out.write_all(&[b])?,
    }
    Ok(next)
}

// What stands first; what is left behind it.
fn one<'a>(rest: &'a [u8], out: &mut impl Write) -> Result<&'a [u8]>
    requires { 0 < length rest.now }
    ensures { IfOk result (λ left. length left.now < length rest.now) }
{
    let next = &rest[1..];
    if rest[0] == b'\\' {
        return escaped(next, out);
    }
    out.write_all(&rest[..1])?;
    Ok(next)
}

// What a text says of which so many bytes stand at the front of a source.
fn put(source: &[u8], size: usize, out: &mut impl Write) -> Result<()> {
    let end = source.len().saturating_sub(size);
    let mut rest = source;
    // A `while`: each turn takes off as much as what it reads has, an escape of several bytes too.
    while rest.len() > end {
        rest = one(rest, out)?;
    }
    Ok(())
}

// The same, as far as the room holds it; how much was written.
pub fn text(source: &[u8], size: usize, room: &mut [u8]) -> usize
    ensures { result ≤ length room.new }
{
    let whole = room.len();
    let mut out = Written { room, size: 0 };
    let _ = put(source, size, &mut out);
    whole.min(out.size)
}
