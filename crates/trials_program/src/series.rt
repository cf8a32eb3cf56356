//! Lines of a script that stand for many.

use crate::fault::Fault;
use crate::words::{first_word, number};
use std::alloc::Global;

/// A line that is asked once for each number from the first to the last, in place of each `#`.
#[derive(Clone, Copy)]
pub struct Series<'a> {
    pub first: u64,
    pub last: u64,
    line: &'a str,
}

impl<'a> Series<'a> {
    /// The lines for which this one stands, where it begins with its numbers.
    pub fn read(line: &'a str) -> Option<Series<'a>> {
        let (first, rest) = first_word(line);
        let (between, rest) = first_word(rest);
        let (last, line) = first_word(rest);
        match (number(first), between, number(last)) {
            (Ok(first), "to", Ok(last)) => Some(Series { first, last, line }),
            _ => None,
        }
    }

    // Adds these lines to the script.
    fn push_to(&self, script: &mut String) -> Result<(), Fault> {
        for number in self.first..=self.last {
            push_with(script, self.line, number)?;
        }
        Ok(())
    }
}

// Adds the line with the number in place of each `#`.
fn push_with(script: &mut String, line: &str, number: u64) -> Result<(), Fault> {
    let mut parts = line.split('#');
    if let Some(front) = parts.next() {
        script.push_str(front)?;
    }
    for part in parts {
        write!(script, "{number}{part}")?;
    }
    script.push('\n')?;
    Ok(())
}

/// The script with the lines for which others stand in their place.
pub fn written_out(alloc: Global, script: &str) -> Result<String, Fault> {
    let mut lines = String::new(alloc);
    for line in script.lines() {
        match Series::read(line) {
            Some(series) => series.push_to(&mut lines)?,
            None => writeln!(lines, "{line}")?,
        }
    }
    Ok(lines)
}
