//! Line ends in texts.

use au_base::Memory;
use std::alloc::Global;
use trials_lines::Fault;

/// The text with `\n`, `\r` and `\\` in place of LF, CR and a backslash.
pub fn escaped(alloc: Global, text: &str) -> Result<String, Fault> {
    let mut made = String::new(alloc);
    for letter in text.chars() {
        push_escaped(&mut made, letter)?;
    }
    Ok(made)
}

fn push_escaped(text: &mut String, letter: char) -> Result<(), Memory> {
    match letter {
        '\n' => text.push_str("\\n")?,
        '\r' => text.push_str("\\r")?,
        '\\' => text.push_str("\\\\")?,
        _ => text.push(letter)?,
    }
    Ok(())
}

/// The text that was written so.
pub fn unescaped(alloc: Global, text: &str) -> Result<String, Fault> {
    let mut made = String::new(alloc);
    let mut behind = false;
    for letter in text.chars() {
        if behind {
            made.push(meant(letter))?;
            behind = false;
        } else if letter == '\\' {
            behind = true;
        } else {
            made.push(letter)?;
        }
    }
    Ok(made)
}

// What a letter behind a backslash stands for.
fn meant(letter: char) -> char {
    match letter {
        'n' => '\n',
        'r' => '\r',
        _ => letter,
    }
}
