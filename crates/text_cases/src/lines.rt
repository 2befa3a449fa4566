// The file `lines`: derivation lines, each with the number of its line and what it is read as.
use casefile::texts::after_line;
use derivation::rule_line::{Line, Position, Rule, RuleLine, line_at};
use std::io::Result;
use std::rt::Files;
use text::read::Read;

// A rule's word in a line. The type is the derivation's, so that it can't be shown by a `Display` of this crate.
fn word(rule: Rule) -> &'static str {
    match rule {
        Rule::Snand => "SNAND",
        Rule::Snor => "SNOR",
        Rule::Stn => "STN",
        Rule::Epred => "EPRED",
        Rule::Eprop => "EPROP",
        Rule::Iq => "IQ",
    }
}

fn step(rt: &impl Print, word: &str, position: Position) -> Result<()> {
    print!(rt;
        "{word} name={} steps={}",
        position.name, position.path.many
    )
}

// What a line is read as.
fn one(rt: &impl Print, line: Line) -> Result<()> {
    match line {
        Line::Step(RuleLine::Rewrite(rule, position)) => step(rt, word(rule), position),
        Line::Step(RuleLine::Unsat(position)) => step(rt, "UNSAT", position),
        Line::Step(RuleLine::Trivial(position)) => step(rt, "TRIVIAL", position),
        Line::Step(RuleLine::Splitc(position, names)) => {
            step(rt, "SPLITC", position)?;
            print!(rt; " names={}", names.many)
        }
        Line::Footer(names) => print!(rt; "FINAL names={}", names.many),
    }
}

// Goes on by places: a line that is refused has no place behind it, and is passed over to its end.
fn each(rt: &impl Print, text: &[u8]) -> Result<()> {
    let mut at: usize = 0;
    let mut line: usize = 1;
    while at < text.len() {
        print!(rt; "line {line}: ")?;
        match line_at(text, at) {
            Some(Read { value, next }) => {
                one(rt, value)?;
                at = next;
            }
            None => {
                print!(rt; "10")?;
                at = after_line(text, at);
            }
        }
        println!(rt)?;
        line += 1;
    }
    Ok(())
}

pub fn run(rt: &(impl Files + Print)) -> Result<()> {
    let mut room = io::large_buffer();
    each(rt, casefile::load(rt, b"lines", &mut room))
}
