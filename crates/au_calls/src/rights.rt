//! The rights that statements on auditing need.
ghost use Rattle.std.specs.Prelude.{◌≡◌, IfOk};
ghost use Rattle.au_calls.specs.Rights.{AreRights, may_not_audit, used_by};
ghost use Rattle.au_calls.specs.Settings.{lent};

use crate::case::AuditCase;
use au_base::built_in::AUDIT_ADMIN;
use au_base::{List, Memory, Name, Privilege};
use std::alloc::Global;

/// Which of the two rights by which auditing is administered a user holds.
#[derive(Clone, Copy, Debug, PartialEq, Eq)]
pub struct AuditRights {
    /// The system privilege AUDIT SYSTEM.
    pub system: bool,
    /// The role AUDIT_ADMIN.
    pub admin: bool,
}

/// The rights of the user whose statement it is.
pub fn rights_of(alloc: Global, case: &AuditCase<'_>) -> Result<AuditRights, Memory>
    ensures { IfOk result (AreRights (lent case.now)) }
{
    let role = Name::from_str(alloc, AUDIT_ADMIN)?;
    let grants = case.case.grants;
    let user = case.case.user;
    Ok(AuditRights {
        system: grants.holds_privilege(user, Privilege::AuditSystem),
        admin: grants.holds_role(user, &role),
    })
}

/// Whether the user may not change audit policies.
pub fn may_not_audit(rights: AuditRights) -> bool
    ensures { result ≡ may_not_audit rights }
{
    !rights.system && !rights.admin
}

/// The system privileges by which the user may change audit policies.
pub fn used_by(alloc: Global, rights: AuditRights) -> Result<List<Privilege>, Memory>
    ensures { IfOk result (λ used. used ≡ used_by rights) }
{
    let mut used = List::new(alloc);
    if rights.system {
        used.push(Privilege::AuditSystem)?;
    }
    Ok(used)
}
