// What is printed: lines of a word and a number.
use crate::input::File;
use demands::answer::Answer;
use std::io::Result;

pub fn unread(rt: &impl Print, file: File) -> Result<()> {
    let number = file.number();
    println!(rt; "result=unread\nfile={number}")
}

pub fn answer(rt: &impl Print, answer: Answer) -> Result<()> {
    let Answer {
        number,
        file,
        line,
        rules,
        formulas,
    } = answer;
    if number == 0 {
        return println!(rt; "result=accepted\nrules={rules}\nformulas={formulas}");
    }
    println!(rt; "result=refused\nnumber={number}\nfile={file}\nline={line}")
}
