//! Lines of scripts, and the numbers of clients.

use crate::answer::said_ask;
use au_base::{Ask, ClientNo, Text};
use au_script::{Labels, ScriptLine, line};
use std::alloc::Global;
use trials_lines::{Fault, said};

/// What the line says.
pub fn script_line(alloc: Global, bytes: &[u8]) -> Result<String, Fault> {
    match line(alloc, bytes)? {
        None => said(alloc, "bad"),
        Some(ScriptLine::Skip) => said(alloc, "skipped"),
        Some(ScriptLine::Ask { label, ask }) => said_labelled(alloc, label.as_str(), &ask),
    }
}

fn said_labelled(alloc: Global, label: &str, ask: &Ask) -> Result<String, Fault> {
    let ask = said_ask(alloc, ask)?;
    Ok(format!(in alloc; "{label} {ask}")?)
}

/// The numbers of the clients with these labels, and how many labels were used.
pub fn labels(alloc: Global, written: &str) -> Result<String, Fault> {
    let mut labels = Labels::new(alloc);
    let mut numbers = String::new(alloc);
    for label in written.split(' ') {
        let client = client_of(alloc, &mut labels, label)?;
        numbers.push_str(&format!(in alloc; "{}, ", client.0)?)?;
    }
    Ok(format!(in alloc; "{numbers}{} labels", labels.len())?)
}

fn client_of(alloc: Global, labels: &mut Labels, label: &str) -> Result<ClientNo, Fault> {
    if labels.len() >= 100 {
        return Err(Fault::NoCase);
    }
    Ok(labels.client_of(alloc, &Text::from_str(alloc, label)?)?)
}
