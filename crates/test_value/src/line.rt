//! Answers on one line.
use std::alloc::{AllocError, Global};

/// Runs of one character that are longer than this are told by their length.
const LONGEST: usize = 40;

/// Writes a text as a row's input is written: `%0A` is a control character, `%(300:[)` a long run of one character.
pub fn one_line(alloc: Global, text: &str) -> Result<String, AllocError> {
    let mut line = String::new(alloc);
    let mut last = 'a';
    let mut count = 0usize;
    for character in text.chars() {
        if character != last {
            append_run(&mut line, last, count)?;
            count = 0;
        }
        last = character;
        count = count.saturating_add(1);
    }
    append_run(&mut line, last, count)?;
    Ok(line)
}

fn append_run(line: &mut String, character: char, count: usize) -> Result<(), AllocError> {
    if count > LONGEST {
        write!(line, "%({count}:")?;
        append(line, character)?;
        return line.push_str(")");
    }
    for _ in 0..count {
        append(line, character)?;
    }
    Ok(())
}

fn append(line: &mut String, character: char) -> Result<(), AllocError> {
    if character.is_control() {
        write!(line, "%{:02X}", character as u32)
    } else {
        line.push(character)
    }
}
