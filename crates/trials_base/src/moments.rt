//! Moments, and steps.
ghost use Rattle.std.specs.Prelude.{◌≡◌, ◌<◌};

use crate::case::{Case, said, word_of};
use au_base::{Memory, Steps, moment_text, read_back, read_moment, written_back};
use std::alloc::Global;
use std::marker::Brand;
use std::sync::ledger::{Blank, Ledger};

/// What a call on moments gives, or that steps are counted, if the case is one.
pub fn tried(alloc: Global, case: &Case<'_>) -> Result<Option<String>, Memory> {
    match case.call {
        "moment" => Ok(Some(moment(alloc, case.number(0))?)),
        "reading" => Ok(Some(reading(alloc, case.text(0))?)),
        "steps" => said(alloc, counted()),
        _ => Ok(None),
    }
}

// The text of a moment, and the moment that it is read as.
fn moment(alloc: Global, moment: u64) -> Result<String, Memory> {
    let written = moment_text(moment);
    let text = std::str::from_utf8(&written).unwrap_or("no text");
    let read = read_moment(&written).unwrap_or(0);
    let back = read_back(moment) == Some(read) && written_back(&written) == Some(written);
    let back = word_of(back, "", ", not back");
    Ok(format!(in alloc; "{text}, {read}{back}")?)
}

fn reading(alloc: Global, text: &str) -> Result<String, Memory> {
    match read_moment(text.as_bytes()) {
        Some(moment) => Ok(format!(in alloc; "{moment}")?),
        None => Ok(String::from_str(alloc, "no moment")?),
    }
}

fn counted() -> &'static str {
    count_to_three::<Brand>(Blank::new(1));
    "counted"
}

fn count_to_three<L: Ledger>(blank: Blank)
    requires name { blank.name ≡ L.name }
    requires parts { blank.parts ≡ L.parts }
    requires some { 0 < L.parts }
{
    let mut steps = Steps::<L>::new(blank);
    for _ in 0..3 {
        steps.tick();
    }
}
