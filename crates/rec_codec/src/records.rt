//! Records of the audit trail.
ghost use Rattle.std.specs.Prelude.{◌≡◌, ◌++◌, OnOk};
ghost use Rattle.rec_parts.specs.Spelling.{option};
ghost use Rattle.rec_parts.specs.Given.{Gives};
ghost use Rattle.rec_parts.specs.descent.Reading.{option_first};
ghost use Rattle.rec_codec.specs.Records.{deed, deed_of, grounds, grounds_of, origin, origin_of, record_of, statement_text};
ghost use Rattle.rec_codec.specs.descent.Records.{deed_first, demanding_first, done_action_first, grounds_first, origin_first, statement_text_first};

use crate::listed::Listed;
use crate::record_parts::{Deed, Grounds, Origin};
use au_base::limits::{CATALOG_OBJECTS, STATEMENT_BYTES};
use au_base::{Action, Code, List, Memory, Name, SessionNo, Stamp, Text};
use au_entries::{Record, RecordKind};
use rec_parts::{
    ReadError, Spelled, read_names, read_privileges, write_names, write_privileges, write_u8,
};
use std::alloc::Global;

#[tactic(auto, unfolding(crate::specs::Records::trail_record, crate::specs::descent::Records::record_first))]
impl Listed for Record {
    ghost use Rattle.rec_codec.specs.Records.{trail_record};
    ghost use Rattle.rec_codec.specs.descent.Records.{record_first};

    ghost spelling = { trail_record };

    ghost first = { record_first };

    fn write(&self, out: &mut Vec<u8>) -> Result<(), Memory> {
        write_origin(self, out)?;
        write_deed(self, out)?;
        write_grounds(self, out)
    }

    fn read(alloc: Global, bytes: &[u8]) -> Result<(Self, &[u8]), ReadError> {
        let (origin, rest) = read_origin(alloc, bytes)?;
        let (deed, rest) = read_deed(alloc, rest)?;
        let (grounds, rest) = read_grounds(alloc, rest)?;
        Ok((record_of(origin, deed, grounds), rest))
    }
}

fn record_of(origin: Origin, deed: Deed, grounds: Grounds) -> Record
    ensures { result ≡ record_of origin deed grounds }
{
    Record {
        kind: origin.kind,
        session: origin.session,
        entry: origin.entry,
        statement: origin.statement,
        stamp: origin.stamp,
        user: origin.user,
        action: deed.action,
        schema: deed.schema,
        object: deed.object,
        sql: deed.sql,
        used: grounds.used,
        policies: grounds.policies,
        fga: grounds.fga,
        code: grounds.code,
    }
}

#[tactic(auto, unfolding(crate::specs::Records::origin))]
fn write_origin(audited: &Record, out: &mut Vec<u8>) -> Result<(), Memory>
    requires { origin.IsSpellable (origin_of audited.now) }
    ensures { OnOk result (out.new.items ≡ out.old.items ++ origin.spelled (origin_of audited.now)) }
{
    audited.kind.write(out)?;
    audited.session.write(out)?;
    audited.entry.write(out)?;
    audited.statement.write(out)?;
    audited.stamp.write(out)?;
    audited.user.write(out)
}

#[tactic(auto, unfolding(crate::specs::descent::Records::origin_first))]
fn read_origin(alloc: Global, bytes: &[u8]) -> Result<(Origin, &[u8]), ReadError>
    ensures { Gives (λ x. (x.0, x.1.now)) result (origin_first bytes.now) }
{
    let (kind, rest) = RecordKind::read(alloc, bytes)?;
    let (session, rest) = SessionNo::read(alloc, rest)?;
    let (entry, rest) = u32::read(alloc, rest)?;
    let (statement, rest) = u32::read(alloc, rest)?;
    let (stamp, rest) = Stamp::read(alloc, rest)?;
    let (user, rest) = Name::read(alloc, rest)?;
    let origin = Origin {
        kind,
        session,
        entry,
        statement,
        stamp,
        user,
    };
    Ok((origin, rest))
}

#[tactic(auto, unfolding(crate::specs::Records::deed, crate::specs::Records::done_action))]
fn write_deed(audited: &Record, out: &mut Vec<u8>) -> Result<(), Memory>
    requires { deed.IsSpellable (deed_of audited.now) }
    ensures { OnOk result (out.new.items ≡ out.old.items ++ deed.spelled (deed_of audited.now)) }
{
    audited.action.write(out)?;
    audited.schema.write(out)?;
    audited.object.write(out)?;
    write_statement_text(&audited.sql, out)
}

#[tactic(auto, unfolding(crate::specs::descent::Records::deed_first))]
fn read_deed(alloc: Global, bytes: &[u8]) -> Result<(Deed, &[u8]), ReadError>
    ensures { Gives (λ x. (x.0, x.1.now)) result (deed_first bytes.now) }
{
    let (action, rest) = read_done_action(alloc, bytes)?;
    let (schema, rest) = Option::<Name>::read(alloc, rest)?;
    let (object, rest) = Option::<Name>::read(alloc, rest)?;
    let (sql, rest) = read_statement_text(alloc, rest)?;
    let deed = Deed {
        action,
        schema,
        object,
        sql,
    };
    Ok((deed, rest))
}

/// An action that was done, and not just any.
#[tactic(auto, unfolding(crate::specs::descent::Records::done_action_first))]
fn read_done_action(alloc: Global, bytes: &[u8]) -> Result<(Action, &[u8]), ReadError>
    ensures { Gives (λ x. (x.0, x.1.now)) result (done_action_first bytes.now) }
{
    let (action, rest) = Action::read(alloc, bytes)?;
    if action.code() < 1 {
        return Err(ReadError::NoFrame);
    }
    Ok((action, rest))
}

#[tactic(auto, unfolding(crate::specs::Records::statement_text))]
fn write_statement_text(text: &Option<Text>, out: &mut Vec<u8>) -> Result<(), Memory>
    requires { (option statement_text).IsSpellable text.now }
    ensures { OnOk result (out.new.items ≡ out.old.items ++ (option statement_text).spelled text.now) }
{
    match text {
        None => write_u8(out, 0),
        Some(text) => {
            write_u8(out, 1)?;
            text.write(out)
        }
    }
}

fn read_statement_text(alloc: Global, bytes: &[u8]) -> Result<(Option<Text>, &[u8]), ReadError>
    ensures { Gives (λ x. (x.0, x.1.now)) result (option_first statement_text_first bytes.now) }
{
    match bytes {
        [0, rest @ ..] => Ok((None, rest)),
        [1, rest @ ..] => {
            let (text, rest) = read_present_text(alloc, rest)?;
            Ok((Some(text), rest))
        }
        _ => Err(ReadError::NoFrame),
    }
}

/// The text of a statement, 1 to 32,767 bytes.
#[tactic(auto, unfolding(crate::specs::descent::Records::statement_text_first))]
fn read_present_text(alloc: Global, bytes: &[u8]) -> Result<(Text, &[u8]), ReadError>
    ensures { Gives (λ x. (x.0, x.1.now)) result (statement_text_first bytes.now) }
{
    let (text, rest) = Text::read(alloc, bytes)?;
    let len = text.as_bytes().len();
    if len < 1 || len > STATEMENT_BYTES {
        return Err(ReadError::NoFrame);
    }
    Ok((text, rest))
}

#[tactic(auto, unfolding(crate::specs::Records::grounds, crate::specs::Records::demanding))]
fn write_grounds(audited: &Record, out: &mut Vec<u8>) -> Result<(), Memory>
    requires { grounds.IsSpellable (grounds_of audited.now) }
    ensures { OnOk result (out.new.items ≡ out.old.items ++ grounds.spelled (grounds_of audited.now)) }
{
    write_privileges(&audited.used, out)?;
    write_names(&audited.policies, out)?;
    audited.fga.write(out)?;
    audited.code.write(out)
}

#[tactic(auto, unfolding(crate::specs::descent::Records::grounds_first))]
fn read_grounds(alloc: Global, bytes: &[u8]) -> Result<(Grounds, &[u8]), ReadError>
    ensures { Gives (λ x. (x.0, x.1.now)) result (grounds_first bytes.now) }
{
    let (used, rest) = read_privileges(alloc, bytes)?;
    let (policies, rest) = read_demanding(alloc, rest)?;
    let (fga, rest) = Option::<Name>::read(alloc, rest)?;
    let (code, rest) = Code::read(alloc, rest)?;
    let grounds = Grounds {
        used,
        policies,
        fga,
        code,
    };
    Ok((grounds, rest))
}

/// The policies that demand a record: each policy, and the mandatory one.
#[tactic(auto, unfolding(crate::specs::descent::Records::demanding_first))]
fn read_demanding(alloc: Global, bytes: &[u8]) -> Result<(List<Name>, &[u8]), ReadError>
    ensures { Gives (λ x. (x.0, x.1.now)) result (demanding_first bytes.now) }
{
    let (names, rest) = read_names(alloc, bytes)?;
    if names.len() > CATALOG_OBJECTS + 1 {
        return Err(ReadError::NoFrame);
    }
    Ok((names, rest))
}
