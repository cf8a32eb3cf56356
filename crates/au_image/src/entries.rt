//! Entries of what is kept, each as the change that makes it so.
ghost use Rattle.std.specs.Prelude.{◌≡◌, IfOk};
ghost use Rattle.au_entries.specs.declared.change.Change.{Change as AnyChange};
ghost use Rattle.au_image.specs.Image.{enablement_change, fga_change, object_change, policy_change, role_change, role_grant_change, system_change, table_change, user_change, written_condition, written_text};

use au_base::{Memory, Name, Text};
use au_catalog::{AuditPolicy, Change, Condition, Enabled, Evaluate, FgaPolicy, Table};
use au_grants::{ObjectGrant, RoleGrant, SystemGrant};

/// An entry of what is kept.
pub trait Entry: Sized {
    ghost as_change: { Self → AnyChange };

    /// The change that makes it so.
    fn change(&self) -> Result<Change, Memory>
        ensures { IfOk result (λ change. change ≡ as_change self.now) };
}

/// A user, with the verifier of its password.
impl Entry for (Name, [u8; 32]) {
    ghost as_change = { user_change };

    fn change(&self) -> Result<Change, Memory> {
        Ok(Change::User(self.0.clone()?, self.1))
    }
}

/// A role.
impl Entry for Name {
    ghost as_change = { role_change };

    fn change(&self) -> Result<Change, Memory> {
        Ok(Change::Role(self.clone()?))
    }
}

/// A grant of a system privilege.
impl Entry for SystemGrant {
    ghost as_change = { system_change };

    fn change(&self) -> Result<Change, Memory> {
        let grantee = self.grantee().clone()?;
        Ok(Change::SysGrant(grantee, self.privilege(), self.has_admin()))
    }
}

/// A grant of a role.
impl Entry for RoleGrant {
    ghost as_change = { role_grant_change };

    fn change(&self) -> Result<Change, Memory> {
        let grantee = self.grantee().clone()?;
        Ok(Change::RoleGrant(grantee, self.role().clone()?, self.has_admin()))
    }
}

impl Entry for Table {
    ghost as_change = { table_change };

    fn change(&self) -> Result<Change, Memory> {
        let name = self.name.clone()?;
        let columns = self.columns.clone()?;
        Ok(Change::Table(name, columns, self.key.clone()?))
    }
}

/// A grant of an object privilege.
impl Entry for ObjectGrant {
    ghost as_change = { object_change };

    fn change(&self) -> Result<Change, Memory> {
        let grantee = self.grantee().clone()?;
        Ok(Change::ObjGrant(grantee, self.table().clone()?, self.action()))
    }
}

impl Entry for AuditPolicy {
    ghost as_change = { policy_change };

    fn change(&self) -> Result<Change, Memory> {
        Ok(Change::Policy {
            name: self.name.clone()?,
            privileges: self.privileges.clone()?,
            actions: self.actions.clone()?,
            roles: self.roles.clone()?,
            when: copy_condition(&self.when)?,
        })
    }
}

/// The enablement of an audit policy.
impl Entry for (Name, Enabled) {
    ghost as_change = { enablement_change };

    fn change(&self) -> Result<Change, Memory> {
        Ok(Change::Enable(self.0.clone()?, self.1.clone()?))
    }
}

impl Entry for FgaPolicy {
    ghost as_change = { fga_change };

    fn change(&self) -> Result<Change, Memory> {
        Ok(Change::Fga {
            table: self.name.table.clone()?,
            policy: self.name.policy.clone()?,
            condition: copy_text(&self.condition)?,
            columns: self.columns.clone()?,
            all: self.all,
            types: self.types,
            enabled: self.enabled,
        })
    }
}

/// The text of the condition, and how often it is evaluated.
fn copy_condition(when: &Option<(Evaluate, Condition)>) -> Result<Option<(Evaluate, Text)>, Memory>
    ensures { IfOk result (λ copy. copy ≡ written_condition when.now) }
{
    match when {
        None => Ok(None),
        Some((evaluate, condition)) => Ok(Some((*evaluate, condition.text.clone()?))),
    }
}

/// The text of the condition.
fn copy_text(condition: &Option<Condition>) -> Result<Option<Text>, Memory>
    ensures { IfOk result (λ copy. copy ≡ written_text condition.now) }
{
    match condition {
        None => Ok(None),
        Some(condition) => Ok(Some(condition.text.clone()?)),
    }
}
