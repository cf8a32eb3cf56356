//! The parts of a line: words, numbers, and bytes as hexadecimal digits.
ghost use Rattle.std.specs.Prelude.{◌≡◌, false};
ghost use Rattle.au_main.specs.Serves.{SaysServe};

use crate::fault::Fault;
use au_base::Text;
use std::alloc::Global;

/// Whether the line asks for an answer: it isn't empty, and no comment.
pub fn asks(line: &str) -> bool {
    !line.is_empty() && !line.starts_with('#')
}

/// The word before the first space, and the text behind the space.
pub fn first_word(text: &str) -> (&str, &str) {
    text.split_once(' ').unwrap_or((text, ""))
}

/// The number that the word writes.
pub fn number(word: &str) -> Result<u64, Fault> {
    word.parse().map_err(|_| Fault::NoCase)
}

/// The numbers that the text lists, with this character between them. `-` lists none.
pub fn numbers(alloc: Global, text: &str, between: char) -> Result<Vec<u64>, Fault> {
    let mut listed = Vec::new(alloc);
    if text == "-" {
        return Ok(listed);
    }
    for word in text.split(between) {
        listed.push(number(word)?)?;
    }
    Ok(listed)
}

/// The words of a command, with spaces between them. `''` is the empty word.
pub fn words_of(alloc: Global, text: &str) -> Result<Vec<Text>, Fault> {
    let mut words = Vec::new(alloc);
    if text.is_empty() {
        return Ok(words);
    }
    for word in text.split(' ') {
        let word = if word == "''" { "" } else { word };
        words.push(Text::from_str(alloc, word)?)?;
    }
    Ok(words)
}

/// Whether the first word is `serve`.
pub fn says_serve(words: &[Text]) -> bool
    ensures { result ≡ false → ¬ (SaysServe words.now) }
{
    match words.split_first() {
        Some((word, _)) => word.as_str() == "serve",
        None => false,
    }
}

/// The bytes that the digits spell. Blanks may part them.
pub fn bytes_of(alloc: Global, digits: &str) -> Result<Vec<u8>, Fault> {
    let mut bytes = Vec::new(alloc);
    for part in digits.split(' ') {
        match hex::decode(alloc, part) {
            Ok(more) => bytes.extend_from_slice(&more)?,
            Err(_) => return Err(Fault::NoCase),
        }
    }
    Ok(bytes)
}
