//! Whether a change goes on.
ghost use Rattle.std.specs.Prelude.{◌↔◌, IfOk, IsTrue, OnErr};
ghost use Rattle.au_entries.specs.Replaying.{GoesOn};
ghost use Rattle.au_replay.specs.Reading.{HasShortText, conditions};
ghost use Rattle.au_replay.specs.Sights.{IsSorted, TakesMemory, shown};

use crate::fine_grained::{fga_goes_on, fga_gone_goes_on};
use crate::grants::{
    obj_grant_goes_on, obj_revoke_goes_on, role_grant_goes_on, role_revoke_goes_on,
    sys_grant_goes_on, sys_revoke_goes_on,
};
use crate::instance::{archive_goes_on, start_goes_on};
use crate::policies::{enable_goes_on, policy_goes_on, policy_gone_goes_on};
use crate::rows::{gone_goes_on, put_goes_on};
use crate::sight::Sight;
use crate::tables::{table_goes_on, table_gone_goes_on};
use crate::users::{role_goes_on, role_gone_goes_on, user_gone_goes_on};
use au_base::Memory;
use au_entries::Change;
use std::alloc::Global;

/// Whether the change goes on from what the sight shows, by the rule by which a journal is
/// replayed. `image` says whether it is one of an image. What the change names is found by halving.
pub fn goes_on(
    alloc: Global,
    sight: &Sight<'_>,
    image: bool,
    change: &Change,
) -> Result<bool, Memory>
    requires order { IsSorted sight.now }
    requires short { HasShortText change.now }
    ensures goes { IfOk result (λ goes. IsTrue goes ↔ GoesOn conditions image (shown sight.now) change.now) }
    ensures err { OnErr result (TakesMemory change.now) }
{
    match change {
        Change::User(_, _) => Ok(true),
        Change::UserGone(name) => Ok(user_gone_goes_on(sight, name)),
        Change::Role(name) => Ok(role_goes_on(sight, name)),
        Change::RoleGone(name) => Ok(role_gone_goes_on(sight, name)),
        Change::SysGrant(name, _, _) => Ok(sys_grant_goes_on(sight, name)),
        Change::SysRevoke(name, right) => Ok(sys_revoke_goes_on(sight, name, *right)),
        Change::RoleGrant(name, role, _) => role_grant_goes_on(alloc, sight, name, role),
        Change::RoleRevoke(name, role) => Ok(role_revoke_goes_on(sight, name, role)),
        Change::ObjGrant(name, table, _) => Ok(obj_grant_goes_on(sight, name, table)),
        Change::ObjRevoke(name, table, action) => Ok(obj_revoke_goes_on(
            sight, name, table, *action,
        )),
        Change::Table(name, columns, key) => Ok(table_goes_on(
            sight,
            name,
            columns.as_slice(),
            key.as_slice(),
        )),
        Change::TableGone(name) => Ok(table_gone_goes_on(sight, name)),
        Change::Put(table, row, cells) => Ok(put_goes_on(sight, table, *row, cells.as_slice())),
        Change::Gone(table, row) => Ok(gone_goes_on(sight, table, *row)),
        Change::Policy { name, when, .. } => policy_goes_on(alloc, name, when),
        Change::PolicyGone(name) => Ok(policy_gone_goes_on(sight, name)),
        Change::Enable(policy, enabled) => Ok(enable_goes_on(sight, policy, enabled)),
        Change::Fga {
            table,
            condition,
            ..
        } => fga_goes_on(alloc, sight, table, condition),
        Change::FgaGone(table, policy) => Ok(fga_gone_goes_on(sight, table, policy)),
        Change::Archive(stamp) => Ok(archive_goes_on(*stamp)),
        Change::Start(instance) => Ok(start_goes_on(image, sight.instance, *instance)),
    }
}
