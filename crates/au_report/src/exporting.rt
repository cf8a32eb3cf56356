//! The trail as comma-separated values.
ghost use Rattle.std.specs.Prelude.{◌≡◌, IfOk, OnOk, decimal, map};
ghost use Rattle.au_base.specs.Actions.{name_of};
ghost use Rattle.au_audit.specs.TrailRows.{kind_name};
ghost use Rattle.au_report.specs.Exports.{column_names, record_fields, trail_text};
ghost use Rattle.au_report.specs.Lines.{line};
ghost use Rattle.au_report.specs.descent.Fields.{fields_with, made_for, or_empty};
ghost use Rattle.au_report.specs.descent.Writing.{Adds, IsReady};

use crate::joining::{joined_names, joined_privileges};
use crate::made::Made;
use au_base::{Memory, Name, Text, moment_text};
use au_entries::{Record, RecordKind};
use csv::{Writer, WriterBuilder};
use std::alloc::Global;

/// The records as comma-separated values: a line of the names of the trail's columns, and behind it a
/// line a record, oldest first. A field stands in quotes exactly where it has a comma, a quote, CR or LF,
/// and a quote in it stands twice; NULL is the empty field. It goes over the records once, and over each
/// byte of them. Its room grows with the text, to at most twice as much; beside it only what one record
/// can't lend is held, at the product's limits the 1,300,128 bytes of its policies' names.
pub fn trail_csv(alloc: Global, records: &[Record]) -> Result<Vec<u8>, Memory>
    ensures { IfOk result (λ text. text.items ≡ trail_text records.now) }
{
    let mut writer = WriterBuilder::new().from_writer(Vec::new(alloc));
    push_column_names(&mut writer)?;
    for entry in records {
        push_record(alloc, &mut writer, entry)?;
    }
    match writer.into_inner() {
        Ok(text) => Ok(text),
        Err(_) => Err(Memory),
    }
}

// The line of the columns' names.
#[tactic(auto, unfolding(crate::specs::Exports::column_names))]
fn push_column_names(writer: &mut Writer<Vec<u8>>) -> Result<(), Memory>
    requires { IsReady writer.old }
    ensures text { OnOk result (Adds writer.old writer.new (line column_names)) }
    ensures ready { OnOk result (IsReady writer.new) }
{
    let names: [&[u8]; 14] = [
        b"AUDIT_TYPE",
        b"SESSIONID",
        b"ENTRY_ID",
        b"STATEMENT_ID",
        b"EVENT_TIMESTAMP",
        b"DBUSERNAME",
        b"ACTION_NAME",
        b"OBJECT_SCHEMA",
        b"OBJECT_NAME",
        b"SQL_TEXT",
        b"SYSTEM_PRIVILEGE_USED",
        b"UNIFIED_AUDIT_POLICIES",
        b"FGA_POLICY_NAME",
        b"RETURN_CODE",
    ];
    push_fields(writer, &names)
}

fn push_record(alloc: Global, writer: &mut Writer<Vec<u8>>, entry: &Record) -> Result<(), Memory>
    requires { IsReady writer.old }
    ensures text { OnOk result (Adds writer.old writer.new (line (record_fields entry.now))) }
    ensures ready { OnOk result (IsReady writer.new) }
{
    let made = made_for(alloc, entry)?;
    let fields = fields_with(entry, &made);
    push_fields(writer, &fields)
}

// A line of 14 fields.
fn push_fields(writer: &mut Writer<Vec<u8>>, fields: &[&[u8]; 14]) -> Result<(), Memory>
    requires { IsReady writer.old }
    ensures text { OnOk result (Adds writer.old writer.new (line (map (λ field. field.now) fields.now))) }
    ensures ready { OnOk result (IsReady writer.new) }
{
    match writer.write_fields(fields.as_slice()) {
        Ok(()) => Ok(()),
        Err(_) => Err(Memory),
    }
}

fn made_for(alloc: Global, entry: &Record) -> Result<Made, Memory>
    ensures { IfOk result (λ made. made ≡ made_for entry.now) }
{
    Ok(Made {
        session: digits(alloc, entry.session.0)?,
        entry: digits(alloc, u64::from(entry.entry))?,
        statement: digits(alloc, u64::from(entry.statement))?,
        moment: moment_text(entry.stamp.0),
        used: joined_privileges(alloc, entry.used.as_slice())?,
        policies: joined_names(alloc, entry.policies.as_slice())?,
        code: digits(alloc, u64::from(entry.code.0))?,
    })
}

fn digits(alloc: Global, number: u64) -> Result<Text, Memory>
    ensures { IfOk result (λ text. text ≡ decimal number) }
{
    Ok(Text::from_string(number.to_string(alloc)?))
}

fn fields_with<'a>(entry: &'a Record, made: &'a Made) -> [&'a [u8]; 14]
    ensures { map (λ field. field.now) result ≡ fields_with entry.now made.now }
{
    [
        kind_name(entry),
        made.session.as_bytes(),
        made.entry.as_bytes(),
        made.statement.as_bytes(),
        made.moment.as_slice(),
        entry.user.as_bytes(),
        action_name(entry),
        name_or_empty(&entry.schema),
        name_or_empty(&entry.object),
        text_or_empty(&entry.sql),
        made.used.as_bytes(),
        made.policies.as_bytes(),
        name_or_empty(&entry.fga),
        made.code.as_bytes(),
    ]
}

fn kind_name(entry: &Record) -> &[u8]
    ensures { result.now ≡ kind_name entry.now.kind }
{
    match entry.kind {
        RecordKind::Standard => b"Standard",
        RecordKind::FineGrained => b"FineGrainedAudit",
    }
}

fn action_name(entry: &Record) -> &[u8]
    ensures { result.now ≡ name_of entry.now.action }
{
    entry.action.name().as_bytes()
}

fn name_or_empty(name: &Option<Name>) -> &[u8]
    ensures { result.now ≡ or_empty name.now }
{
    match name {
        Some(name) => name.as_bytes(),
        None => b"",
    }
}

fn text_or_empty(text: &Option<Text>) -> &[u8]
    ensures { result.now ≡ or_empty text.now }
{
    match text {
        Some(text) => text.as_bytes(),
        None => b"",
    }
}
