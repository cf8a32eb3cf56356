//! The parts of a line.

use au_base::Text;
use std::alloc::Global;
use trials_lines::{Fault, number};

/// The word before the first space, and the text behind the space.
pub fn first_word(text: &str) -> (&str, &str) {
    text.split_once(' ').unwrap_or((text, ""))
}

/// The numbers that the text lists, with commas between them. `-` lists none.
pub fn numbers(alloc: Global, text: &str) -> Result<Vec<u64>, Fault> {
    let mut listed = Vec::new(alloc);
    if text != "-" {
        for word in text.split(',') {
            listed.push(number(word)?)?;
        }
    }
    Ok(listed)
}

/// The words of a command, with spaces between them.
pub fn words_of(alloc: Global, text: &str) -> Result<Vec<Text>, Fault> {
    let mut words = Vec::new(alloc);
    for word in text.split(' ') {
        words.push(Text::from_str(alloc, word)?)?;
    }
    Ok(words)
}
