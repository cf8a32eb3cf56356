//! The names that are there from the start.

/// The user who owns the store, and DUAL.
pub const SYS: &str = "SYS";

/// The owner of the audit trail, who is no user.
pub const AUDSYS: &str = "AUDSYS";

/// The table of SYS with one row.
pub const DUAL: &str = "DUAL";

/// The table of AUDSYS whose rows are the trail's records.
pub const UNIFIED_AUDIT_TRAIL: &str = "UNIFIED_AUDIT_TRAIL";

/// The role that may administer auditing.
pub const AUDIT_ADMIN: &str = "AUDIT_ADMIN";

/// The role that may read the audit trail.
pub const AUDIT_VIEWER: &str = "AUDIT_VIEWER";

/// No user or role can have this name.
pub const PUBLIC: &str = "PUBLIC";

/// The policy that is always on. It is in no catalogue.
pub const ORA_MANDATORY: &str = "ORA$MANDATORY";

/// The audit policy that every store begins with, `ACTIONS ALL`, not enabled.
pub const P_ALL: &str = "P_ALL";
