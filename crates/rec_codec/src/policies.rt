//! Audit policies.
ghost use Rattle.std.specs.Prelude.{◌≡◌, ◌++◌, OnOk};
ghost use Rattle.rec_parts.specs.Given.{Gives};
ghost use Rattle.rec_parts.specs.descent.Reading.{made_first};
ghost use Rattle.rec_codec.specs.Changes.{parts, policy, when};
ghost use Rattle.rec_codec.specs.descent.Changes.{made_policy, parts_first, policy_first, when_behind, when_first};

use au_base::{Action, List, Memory, Name, Privilege, TableName, Text};
use au_entries::{Change, Evaluate};
use rec_parts::{
    ReadError, Spelled, parts_each_once, read_list_u16, read_names, read_privileges, read_u8,
    write_list_u16, write_names, write_privileges, write_u8,
};
use std::alloc::Global;

/// Writes the parts of a policy.
#[tactic(auto, unfolding(crate::specs::Changes::policy))]
pub(crate) fn write_policy(
    name: &Name,
    privileges: &List<Privilege>,
    actions: &List<(Action, Option<TableName>)>,
    roles: &List<Name>,
    condition: &Option<(Evaluate, Text)>,
    out: &mut Vec<u8>,
) -> Result<(), Memory>
    requires { policy.IsSpellable (name.now, (privileges.now, (actions.now, (roles.now, condition.now)))) }
    ensures { OnOk result (out.new.items
        ≡ out.old.items ++ policy.spelled (name.now, (privileges.now, (actions.now, (roles.now, condition.now))))) }
{
    name.write(out)?;
    write_privileges(privileges, out)?;
    write_parts(actions, out)?;
    write_names(roles, out)?;
    write_when(condition, out)
}

/// A policy, and the bytes behind it.
#[tactic(auto, unfolding(crate::specs::descent::Changes::policy_first))]
pub(crate) fn read_policy(alloc: Global, bytes: &[u8]) -> Result<(Change, &[u8]), ReadError>
    ensures { Gives (λ x. (x.0, x.1.now)) result (made_first policy_first made_policy bytes.now) }
{
    let (name, rest) = Name::read(alloc, bytes)?;
    let (privileges, rest) = read_privileges(alloc, rest)?;
    let (actions, rest) = read_parts(alloc, rest)?;
    let (roles, rest) = read_names(alloc, rest)?;
    let (when, rest) = read_when(alloc, rest)?;
    let made = Change::Policy {
        name,
        privileges,
        actions,
        roles,
        when,
    };
    Ok((made, rest))
}

#[tactic(auto, unfolding(crate::specs::Changes::parts))]
fn write_parts(values: &List<(Action, Option<TableName>)>, out: &mut Vec<u8>) -> Result<(), Memory>
    requires { parts.IsSpellable values.now }
    ensures { OnOk result (out.new.items ≡ out.old.items ++ parts.spelled values.now) }
{
    write_list_u16(values, out)
}

/// Parts of a policy, no two the same.
#[tactic(auto, unfolding(crate::specs::descent::Changes::parts_first))]
fn read_parts(
    alloc: Global,
    bytes: &[u8],
) -> Result<(List<(Action, Option<TableName>)>, &[u8]), ReadError>
    ensures { Gives (λ x. (x.0, x.1.now)) result (parts_first bytes.now) }
{
    let (values, rest) = read_list_u16::<(Action, Option<TableName>)>(alloc, bytes)?;
    if !parts_each_once(alloc, values.as_slice())? {
        return Err(ReadError::NoFrame);
    }
    Ok((values, rest))
}

#[tactic(auto, unfolding(crate::specs::Changes::when))]
fn write_when(condition: &Option<(Evaluate, Text)>, out: &mut Vec<u8>) -> Result<(), Memory>
    requires { when.IsSpellable condition.now }
    ensures { OnOk result (out.new.items ≡ out.old.items ++ when.spelled condition.now) }
{
    match condition {
        None => write_u8(out, 0),
        Some((Evaluate::Statement, text)) => {
            write_u8(out, 1)?;
            text.write(out)
        }
        Some((Evaluate::Session, text)) => {
            write_u8(out, 2)?;
            text.write(out)
        }
        Some((Evaluate::Instance, text)) => {
            write_u8(out, 3)?;
            text.write(out)
        }
    }
}

/// When a condition is evaluated, and its text.
#[tactic(auto, unfolding(crate::specs::descent::Changes::when_first))]
fn read_when(alloc: Global, bytes: &[u8]) -> Result<(Option<(Evaluate, Text)>, &[u8]), ReadError>
    ensures { Gives (λ x. (x.0, x.1.now)) result (when_first bytes.now) }
{
    let (code, rest) = read_u8(bytes)?;
    read_behind_code(alloc, code, rest)
}

#[tactic(auto, unfolding(crate::specs::descent::Changes::when_behind))]
fn read_behind_code(
    alloc: Global,
    code: u8,
    bytes: &[u8],
) -> Result<(Option<(Evaluate, Text)>, &[u8]), ReadError>
    ensures { Gives (λ x. (x.0, x.1.now)) result (when_behind code bytes.now) }
{
    match code {
        0 => Ok((None, bytes)),
        1 => {
            let (text, rest) = Text::read(alloc, bytes)?;
            Ok((Some((Evaluate::Statement, text)), rest))
        }
        2 => {
            let (text, rest) = Text::read(alloc, bytes)?;
            Ok((Some((Evaluate::Session, text)), rest))
        }
        3 => {
            let (text, rest) = Text::read(alloc, bytes)?;
            Ok((Some((Evaluate::Instance, text)), rest))
        }
        _ => Err(ReadError::NoFrame),
    }
}
