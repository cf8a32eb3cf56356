//! Changes of what is kept.
ghost use Rattle.std.specs.Prelude.{◌≡◌, ◌++◌, ◌∷◌, OnOk};
ghost use Rattle.rec_parts.specs.Given.{Gives};
ghost use Rattle.rec_codec.specs.Changes.{created, enablement, object_right, put};
ghost use Rattle.rec_codec.specs.descent.Changes.{audited_behind, change_behind, granted_behind, named_behind, object_action_first, object_right_first, tabled_behind};

use crate::enabled::{read_enabled, write_enabled};
use crate::fine_grained::{read_fga, write_fga_parts};
use crate::listed::Listed;
use crate::policies::{read_policy, write_policy};
use au_base::{Action, Cell, Column, List, Memory, Name, Privilege, RowNo, Stamp, TableName};
use au_entries::{Change, Enabled};
use rec_parts::{
    ReadError, Spelled, read_cells, read_columns, read_places, read_u8, write_cells, write_columns,
    write_one, write_places, write_three, write_two, write_u8,
};
use std::alloc::Global;

#[tactic(auto, unfolding(crate::specs::Changes::change, crate::specs::Changes::user, crate::specs::Changes::system_grant, crate::specs::Changes::system_revoke, crate::specs::Changes::role_grant, crate::specs::Changes::role_revoke, crate::specs::Changes::row, crate::specs::Changes::fga_name, crate::specs::Changes::fga, crate::specs::descent::Changes::change_first))]
impl Listed for Change {
    ghost use Rattle.rec_codec.specs.Changes.{change};
    ghost use Rattle.rec_codec.specs.descent.Changes.{change_first};

    ghost spelling = { change };

    ghost first = { change_first };

    fn write(&self, out: &mut Vec<u8>) -> Result<(), Memory> {
        match self {
            Change::User(name, verifier) => write_two(out, 1, name, verifier),
            Change::UserGone(name) => write_one(out, 2, name),
            Change::Role(name) => write_one(out, 3, name),
            Change::RoleGone(name) => write_one(out, 4, name),
            Change::SysGrant(to, privilege, admin) => write_three(out, 5, to, privilege, admin),
            Change::SysRevoke(from, privilege) => write_two(out, 6, from, privilege),
            Change::RoleGrant(to, role, admin) => write_three(out, 7, to, role, admin),
            Change::RoleRevoke(from, role) => write_two(out, 8, from, role),
            Change::ObjGrant(to, table, action) => write_right(out, 9, to, table, *action),
            Change::ObjRevoke(from, table, action) => write_right(out, 10, from, table, *action),
            Change::Table(table, columns, key) => write_created(out, table, columns, key),
            Change::TableGone(table) => write_one(out, 12, table),
            Change::Put(table, row, cells) => write_put(out, table, *row, cells),
            Change::Gone(table, row) => write_two(out, 14, table, row),
            Change::Policy {
                name,
                privileges,
                actions,
                roles,
                when,
            } => {
                write_u8(out, 15)?;
                write_policy(name, privileges, actions, roles, when, out)
            }
            Change::PolicyGone(name) => write_one(out, 16, name),
            Change::Enable(policy, enabled) => write_enablement(out, policy, enabled),
            Change::Fga {
                table,
                policy,
                condition,
                columns,
                all,
                types,
                enabled,
            } => {
                write_two(out, 18, table, policy)?;
                write_fga_parts(out, condition, columns, *all, *types, *enabled)
            }
            Change::FgaGone(table, policy) => write_two(out, 19, table, policy),
            Change::Archive(stamp) => write_one(out, 20, stamp),
            Change::Start(instance) => write_one(out, 21, instance),
        }
    }

    fn read(alloc: Global, bytes: &[u8]) -> Result<(Self, &[u8]), ReadError> {
        let (tag, rest) = read_u8(bytes)?;
        read_behind_tag(alloc, tag, rest)
    }
}

/// Writes a sign and an object privilege.
#[tactic(auto, unfolding(crate::specs::Changes::object_right, crate::specs::Changes::object_action))]
fn write_right(
    out: &mut Vec<u8>,
    sign: u8,
    grantee: &Name,
    table: &TableName,
    action: Action,
) -> Result<(), Memory>
    requires { object_right.IsSpellable (grantee.now, (table.now, action)) }
    ensures { OnOk result (out.new.items ≡ out.old.items ++ sign ∷ object_right.spelled (grantee.now, (table.now, action))) }
{
    write_three(out, sign, grantee, table, &action)
}

/// Writes a new table.
#[tactic(auto, unfolding(crate::specs::Changes::created))]
fn write_created(
    out: &mut Vec<u8>,
    table: &TableName,
    columns: &List<Column>,
    key: &List<u32>,
) -> Result<(), Memory>
    requires { created.IsSpellable (table.now, (columns.now, key.now)) }
    ensures { OnOk result (out.new.items ≡ out.old.items ++ 11 ∷ created.spelled (table.now, (columns.now, key.now))) }
{
    write_one(out, 11, table)?;
    write_columns(columns, out)?;
    write_places(key, out)
}

/// Writes a row that is put.
#[tactic(auto, unfolding(crate::specs::Changes::put))]
fn write_put(
    out: &mut Vec<u8>,
    table: &TableName,
    row: RowNo,
    cells: &List<Cell>,
) -> Result<(), Memory>
    requires { put.IsSpellable (table.now, (row, cells.now)) }
    ensures { OnOk result (out.new.items ≡ out.old.items ++ 13 ∷ put.spelled (table.now, (row, cells.now))) }
{
    write_two(out, 13, table, &row)?;
    write_cells(cells, out)
}

/// Writes for whom a policy is enabled.
#[tactic(auto, unfolding(crate::specs::Changes::enablement))]
fn write_enablement(out: &mut Vec<u8>, policy: &Name, enabled: &Enabled) -> Result<(), Memory>
    requires { enablement.IsSpellable (policy.now, enabled.now) }
    ensures { OnOk result (out.new.items ≡ out.old.items ++ 17 ∷ enablement.spelled (policy.now, enabled.now)) }
{
    write_one(out, 17, policy)?;
    write_enabled(enabled, out)
}

#[tactic(auto, unfolding(crate::specs::descent::Changes::change_behind))]
fn read_behind_tag(alloc: Global, tag: u8, bytes: &[u8]) -> Result<(Change, &[u8]), ReadError>
    ensures { Gives (λ x. (x.0, x.1.now)) result (change_behind tag bytes.now) }
{
    if tag < 5 {
        return read_named(alloc, tag, bytes);
    }
    if tag < 11 {
        return read_granted(alloc, tag, bytes);
    }
    if tag < 15 {
        return read_tabled(alloc, tag, bytes);
    }
    read_audited(alloc, tag, bytes)
}

/// A change of users or roles.
#[tactic(auto, unfolding(crate::specs::descent::Changes::named_behind))]
fn read_named(alloc: Global, tag: u8, bytes: &[u8]) -> Result<(Change, &[u8]), ReadError>
    ensures { Gives (λ x. (x.0, x.1.now)) result (named_behind tag bytes.now) }
{
    match tag {
        1 => {
            let (name, rest) = Name::read(alloc, bytes)?;
            let (verifier, rest) = <[u8; 32]>::read(alloc, rest)?;
            Ok((Change::User(name, verifier), rest))
        }
        2 => {
            let (name, rest) = Name::read(alloc, bytes)?;
            Ok((Change::UserGone(name), rest))
        }
        3 => {
            let (name, rest) = Name::read(alloc, bytes)?;
            Ok((Change::Role(name), rest))
        }
        4 => {
            let (name, rest) = Name::read(alloc, bytes)?;
            Ok((Change::RoleGone(name), rest))
        }
        _ => Err(ReadError::NoFrame),
    }
}

/// A change of grants.
#[tactic(auto, unfolding(crate::specs::descent::Changes::granted_behind))]
fn read_granted(alloc: Global, tag: u8, bytes: &[u8]) -> Result<(Change, &[u8]), ReadError>
    ensures { Gives (λ x. (x.0, x.1.now)) result (granted_behind tag bytes.now) }
{
    match tag {
        5 => {
            let (grantee, rest) = Name::read(alloc, bytes)?;
            let (privilege, rest) = Privilege::read(alloc, rest)?;
            let (admin, rest) = bool::read(alloc, rest)?;
            Ok((Change::SysGrant(grantee, privilege, admin), rest))
        }
        6 => {
            let (grantee, rest) = Name::read(alloc, bytes)?;
            let (privilege, rest) = Privilege::read(alloc, rest)?;
            Ok((Change::SysRevoke(grantee, privilege), rest))
        }
        7 => {
            let (grantee, rest) = Name::read(alloc, bytes)?;
            let (role, rest) = Name::read(alloc, rest)?;
            let (admin, rest) = bool::read(alloc, rest)?;
            Ok((Change::RoleGrant(grantee, role, admin), rest))
        }
        8 => {
            let (grantee, rest) = Name::read(alloc, bytes)?;
            let (role, rest) = Name::read(alloc, rest)?;
            Ok((Change::RoleRevoke(grantee, role), rest))
        }
        9 => {
            let ((grantee, table, action), rest) = read_right(alloc, bytes)?;
            Ok((Change::ObjGrant(grantee, table, action), rest))
        }
        10 => {
            let ((grantee, table, action), rest) = read_right(alloc, bytes)?;
            Ok((Change::ObjRevoke(grantee, table, action), rest))
        }
        _ => Err(ReadError::NoFrame),
    }
}

/// An object privilege: the grantee, the table and the action.
#[tactic(auto, unfolding(crate::specs::descent::Changes::object_right_first))]
fn read_right(alloc: Global, bytes: &[u8]) -> Result<((Name, TableName, Action), &[u8]), ReadError>
    ensures { Gives (λ x. ((x.0.0, (x.0.1, x.0.2)), x.1.now)) result (object_right_first bytes.now) }
{
    let (grantee, rest) = Name::read(alloc, bytes)?;
    let (table, rest) = TableName::read(alloc, rest)?;
    let (action, rest) = read_object_action(alloc, rest)?;
    Ok(((grantee, table, action), rest))
}

/// SELECT, INSERT, UPDATE or DELETE.
#[tactic(auto, unfolding(crate::specs::descent::Changes::object_action_first))]
fn read_object_action(alloc: Global, bytes: &[u8]) -> Result<(Action, &[u8]), ReadError>
    ensures { Gives (λ x. (x.0, x.1.now)) result (object_action_first bytes.now) }
{
    let (action, rest) = Action::read(alloc, bytes)?;
    if action.code() < 1 || action.code() > 4 {
        return Err(ReadError::NoFrame);
    }
    Ok((action, rest))
}

/// A change of tables or rows.
#[tactic(auto, unfolding(crate::specs::descent::Changes::tabled_behind))]
fn read_tabled(alloc: Global, tag: u8, bytes: &[u8]) -> Result<(Change, &[u8]), ReadError>
    ensures { Gives (λ x. (x.0, x.1.now)) result (tabled_behind tag bytes.now) }
{
    match tag {
        11 => {
            let (table, rest) = TableName::read(alloc, bytes)?;
            let (columns, rest) = read_columns(alloc, rest)?;
            let (key, rest) = read_places(alloc, rest)?;
            Ok((Change::Table(table, columns, key), rest))
        }
        12 => {
            let (table, rest) = TableName::read(alloc, bytes)?;
            Ok((Change::TableGone(table), rest))
        }
        13 => {
            let (table, rest) = TableName::read(alloc, bytes)?;
            let (row, rest) = RowNo::read(alloc, rest)?;
            let (cells, rest) = read_cells(alloc, rest)?;
            Ok((Change::Put(table, row, cells), rest))
        }
        14 => {
            let (table, rest) = TableName::read(alloc, bytes)?;
            let (row, rest) = RowNo::read(alloc, rest)?;
            Ok((Change::Gone(table, row), rest))
        }
        _ => Err(ReadError::NoFrame),
    }
}

/// A change of policies, of the archive timestamp or of the instance.
#[tactic(auto, unfolding(crate::specs::descent::Changes::audited_behind))]
fn read_audited(alloc: Global, tag: u8, bytes: &[u8]) -> Result<(Change, &[u8]), ReadError>
    ensures { Gives (λ x. (x.0, x.1.now)) result (audited_behind tag bytes.now) }
{
    match tag {
        15 => read_policy(alloc, bytes),
        16 => {
            let (name, rest) = Name::read(alloc, bytes)?;
            Ok((Change::PolicyGone(name), rest))
        }
        17 => {
            let (policy, rest) = Name::read(alloc, bytes)?;
            let (enabled, rest) = read_enabled(alloc, rest)?;
            Ok((Change::Enable(policy, enabled), rest))
        }
        18 => read_fga(alloc, bytes),
        19 => {
            let (table, rest) = TableName::read(alloc, bytes)?;
            let (policy, rest) = Name::read(alloc, rest)?;
            Ok((Change::FgaGone(table, policy), rest))
        }
        20 => {
            let (stamp, rest) = Option::<Stamp>::read(alloc, bytes)?;
            Ok((Change::Archive(stamp), rest))
        }
        21 => {
            let (instance, rest) = u32::read(alloc, bytes)?;
            Ok((Change::Start(instance), rest))
        }
        _ => Err(ReadError::NoFrame),
    }
}
