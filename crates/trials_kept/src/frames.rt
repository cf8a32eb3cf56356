//! Frames, as lines spell them.

use crate::words::{bytes_of, list_of};
use std::alloc::Global;
use trials_lines::Fault;

/// The body of the frame that a line spells: its kind, then its moments, `:`, its changes, `/` and its
/// records. The moments are its stamp and, of a purge, the one before which records go, or `all`.
pub fn body_of(alloc: Global, kind: u8, line: &str) -> Result<Vec<u8>, Fault> {
    let (moments, lists) = line.split_once(':').ok_or(Fault::NoCase)?;
    let (changes, records) = lists.split_once('/').unwrap_or((lists, ""));
    let mut body = Vec::new(alloc);
    body.push(kind)?;
    push_moments(alloc, &mut body, moments.trim())?;
    body.extend_from_slice(&list_of(alloc, changes)?)?;
    body.extend_from_slice(&list_of(alloc, records)?)?;
    Ok(body)
}

fn push_moments(alloc: Global, body: &mut Vec<u8>, moments: &str) -> Result<(), Fault> {
    match moments.split_once(' ') {
        None => push_moment(alloc, body, moments),
        Some((stamp, "all")) => {
            push_moment(alloc, body, stamp)?;
            body.push(0)?;
            Ok(())
        }
        Some((stamp, before)) => {
            push_moment(alloc, body, stamp)?;
            body.push(1)?;
            push_moment(alloc, body, before)
        }
    }
}

fn push_moment(alloc: Global, body: &mut Vec<u8>, moment: &str) -> Result<(), Fault> {
    let word = format!(in alloc; "##{moment}")?;
    body.extend_from_slice(&bytes_of(alloc, &word)?)?;
    Ok(())
}

/// The body as the journal takes it: behind its length in eight bytes, and with a closed gate behind it.
pub fn framed(alloc: Global, body: &[u8]) -> Result<Vec<u8>, Fault> {
    let mut bytes = Vec::new(alloc);
    bytes.extend_from_slice(&(body.len() as u64).to_be_bytes())?;
    bytes.extend_from_slice(body)?;
    bytes.push(0)?;
    Ok(bytes)
}
