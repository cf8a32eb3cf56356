//! Requests, and the responses to those that are refused.

use crate::answer::said_ask;
use crate::escapes::escaped;
use au_http::{Need, bad_response, next_request};
use std::alloc::Global;
use std::str;
use trials_lines::{Fault, said};

/// What the bytes need.
pub fn request(alloc: Global, bytes: &[u8]) -> Result<String, Fault> {
    said_need(alloc, &next_request(alloc, bytes)?)
}

fn said_need(alloc: Global, need: &Need) -> Result<String, Fault> {
    match need {
        Need::More => said(alloc, "more"),
        Need::Bad(status) => Ok(format!(in alloc; "bad {status}")?),
        Need::Got { used, ask, close } => {
            let ask = said_ask(alloc, ask)?;
            let end = if *close { "close" } else { "keep" };
            Ok(format!(in alloc; "got {used} {ask} {end}")?)
        }
    }
}

/// How many of the fronts need more.
pub fn fronts(alloc: Global, bytes: &[u8]) -> Result<String, Fault> {
    let mut count = 0u64;
    for size in 0..bytes.len() {
        if needs_more(alloc, bytes.get(..size).unwrap_or(bytes))? {
            count = count.saturating_add(1);
        }
    }
    Ok(format!(in alloc; "{count} of {}", bytes.len())?)
}

fn needs_more(alloc: Global, bytes: &[u8]) -> Result<bool, Fault> {
    Ok(matches!(&next_request(alloc, bytes)?, Need::More))
}

/// The bytes of the response to a request that is refused with this status.
pub fn refusal(alloc: Global, status: &str) -> Result<String, Fault> {
    let bytes = match status {
        "400" => bad_response(400),
        "404" => bad_response(404),
        "405" => bad_response(405),
        "413" => bad_response(413),
        _ => return Err(Fault::NoCase),
    };
    escaped(alloc, str::from_utf8(bytes).map_err(|_| Fault::NoCase)?)
}
