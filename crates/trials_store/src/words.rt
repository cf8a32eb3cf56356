//! The parts of a line, and answers as words.

use au_io::Area;
use au_store::{Created, OpenFault};
use std::alloc::Global;
use trials_lines::Fault;

/// The word before the first space, and the text behind the space.
pub fn first_word(text: &str) -> (&str, &str) {
    text.split_once(' ').unwrap_or((text, ""))
}

/// The limit that the word writes, or one that no case comes to.
pub fn limit(word: &str) -> Result<u32, Fault> {
    match word {
        "" => Ok(1_073_741_824),
        _ => word.parse().map_err(|_| Fault::NoCase),
    }
}

/// The bytes that the word writes as hexadecimal digits.
pub fn bytes(alloc: Global, word: &str) -> Result<Vec<u8>, Fault> {
    hex::decode(alloc, word).map_err(|_| Fault::NoCase)
}

/// Adds how making a store ended.
pub fn push_created(created: Created, said: &mut String) -> Result<(), Fault> {
    match created {
        Created::Done => said.push_str("done")?,
        Created::Formatted => said.push_str("formatted")?,
        Created::Disk => said.push_str("disk")?,
        Created::Memory => return Err(Fault::Memory),
    }
    Ok(())
}

/// Adds why a store isn't opened.
pub fn push_why(why: OpenFault, said: &mut String) -> Result<(), Fault> {
    match why {
        OpenFault::Disk => said.push_str("disk")?,
        OpenFault::Unformatted => said.push_str("unformatted")?,
        OpenFault::Damaged { area, at } => {
            let area = area_word(area);
            write!(said, "damaged {area} at {at}")?;
        }
        OpenFault::Worn => said.push_str("worn")?,
        OpenFault::Memory => return Err(Fault::Memory),
    }
    Ok(())
}

fn area_word(area: Area) -> &'static str {
    match area {
        Area::Head => "head",
        Area::A => "A",
        Area::B => "B",
    }
}
