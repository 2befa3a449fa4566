// A problem that was read, written from its table and rows: its own text again.
use std::io::Result;
use table::table::{Predicate, Table};
use text::name::part;

// A row's elements, from the number that it is.
fn row(rt: &impl Print, key: u32, arity: u32) -> Result<()> {
    let mut left = key;
    for place in 0..arity {
        if place > 0 {
            print!(rt; ".")?;
        }
        print!(rt; "{}", left % 256)?;
        left /= 256;
    }
    Ok(())
}

// What stands behind `rows=`: a truth value for arity 0.
fn relation(rt: &impl Print, rows: &[u32], arity: u32) -> Result<()> {
    if arity == 0 {
        return print!(rt; "{}", !rows.is_empty());
    }
    for (i, key) in rows.iter().enumerate() {
        if i > 0 {
            print!(rt; ",")?;
        }
        row(rt, *key, arity)?;
    }
    Ok(())
}

// A predicate's name and arity.
fn predicate(rt: &impl Print, text: &[u8], predicate: Predicate) -> Result<()> {
    rt.write_all(predicate.name.of(text))?;
    println!(rt; "/{}", predicate.arity)
}

fn input(rt: &impl Print, text: &[u8], rows: &[u32], input: Predicate) -> Result<()> {
    print!(rt; "input=")?;
    predicate(rt, text, input)?;
    print!(rt; "rows=")?;
    relation(
        rt,
        part(rows, input.first as usize, input.rows as usize),
        input.arity,
    )?;
    println!(rt)
}

fn output(rt: &impl Print, text: &[u8], output: Predicate) -> Result<()> {
    print!(rt; "output=")?;
    predicate(rt, text, output)
}

pub fn problem(rt: &impl Print, text: &[u8], table: &Table, rows: &[u32]) -> Result<()> {
    println!(rt; "domain={}", table.domain)?;
    for i in 0..table.count {
        if i < table.inputs {
            input(rt, text, rows, table.predicate(i))?;
        } else {
            output(rt, text, table.predicate(i))?;
        }
    }
    Ok(())
}
