//! Records, as texts.

use crate::fault::Fault;
use crate::parts::{add, add_names, add_number, add_option, add_option_text, add_privileges};
use au_base::{Code, SessionNo, Stamp};
use au_catalog::{Record, RecordKind};
use std::alloc::Global;

/// Adds the record: its parts in the order of their bytes.
pub fn add_record(out: &mut String, alloc: Global, entry: &Record) -> Result<(), Fault> {
    let kind = match entry.kind {
        RecordKind::Standard => "Standard",
        RecordKind::FineGrained => "FineGrainedAudit",
    };
    add(out, kind)?;
    add_origin(out, alloc, entry)?;
    add(out, "action")?;
    add_number(out, alloc, u64::from(entry.action.code()))?;
    add(out, "object")?;
    add_option(out, &entry.schema)?;
    add_option(out, &entry.object)?;
    add(out, "text")?;
    add_option_text(out, &entry.sql)?;
    add_grounds(out, alloc, entry)
}

fn add_origin(out: &mut String, alloc: Global, entry: &Record) -> Result<(), Fault> {
    let (SessionNo(session), Stamp(stamp)) = (entry.session, entry.stamp);
    add(out, "session")?;
    add_number(out, alloc, session)?;
    add(out, "entry")?;
    add_number(out, alloc, u64::from(entry.entry))?;
    add(out, "statement")?;
    add_number(out, alloc, u64::from(entry.statement))?;
    add(out, "at")?;
    add_number(out, alloc, stamp)?;
    add(out, "user")?;
    add(out, entry.user.as_str())
}

fn add_grounds(out: &mut String, alloc: Global, entry: &Record) -> Result<(), Fault> {
    let Code(code) = entry.code;
    add(out, "used")?;
    add_privileges(out, alloc, entry.used.as_slice())?;
    add(out, "policies")?;
    add_names(out, entry.policies.as_slice())?;
    add(out, "fga")?;
    add_option(out, &entry.fga)?;
    add(out, "code")?;
    add_number(out, alloc, u64::from(code))
}
