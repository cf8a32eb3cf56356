//! What is there.
ghost use Rattle.std.specs.Prelude.{◌≡◌, length};
ghost use Rattle.std.specs.List.{list_any};
ghost use Rattle.std.specs.Str.{bytes_eq};
ghost use Rattle.au_define.specs.Settings.{IsSorted, has_role, has_table, has_user, is_connected, is_full, is_taken, lent, owns_table};

use crate::case::Case;
use crate::finding;
use au_base::built_in::{AUDSYS, PUBLIC};
use au_base::limits::CATALOG_OBJECTS;
use au_base::{Name, TableName};

/// Whether a user of this name is there.
pub fn has_user(case: &Case<'_>, name: &Name) -> bool
    requires order { IsSorted case.now }
    ensures { result ≡ has_user (lent case.now) name.now }
{
    finding::has_named(case.users, name.as_str())
}

/// Whether a role of this name is there.
pub fn has_role(case: &Case<'_>, name: &Name) -> bool
    requires order { IsSorted case.now }
    ensures { result ≡ has_role (lent case.now) name.now }
{
    finding::has_named(case.roles, name.as_str())
}

/// Whether a table of this name is there, a built-in one not counted.
pub fn has_table(case: &Case<'_>, name: &TableName) -> bool
    requires order { IsSorted case.now }
    ensures { result ≡ has_table (lent case.now) name.now }
{
    finding::has_table(case.tables, name)
}

/// Whether the user owns a table.
pub fn owns_table(case: &Case<'_>, user: &Name) -> bool
    requires order { IsSorted case.now }
    ensures { result ≡ owns_table (lent case.now) user.now }
{
    finding::owns_table(case.tables, user)
}

/// Whether the user has a session.
pub fn is_connected(case: &Case<'_>, user: &Name) -> bool
    ensures { result ≡ is_connected (lent case.now) user.now }
{
    has_name(case.busy.connected.as_slice(), user)
}

fn has_name(names: &[Name], name: &Name) -> bool
    ensures { result ≡ list_any (λ other. bytes_eq other name.now) names.now }
{
    names.iter().any(|other| *other == *name)
}

/// Whether no new user or role can have the name: a user or a role has it, or it is AUDSYS or
/// PUBLIC.
pub fn is_taken(case: &Case<'_>, name: &Name) -> bool
    requires order { IsSorted case.now }
    ensures { result ≡ is_taken (lent case.now) name.now }
{
    has_user(case, name)
        || has_role(case, name)
        || name.as_str() == AUDSYS
        || name.as_str() == PUBLIC
}

/// Whether no more users, roles or tables can be there beside so many.
pub fn is_full(count: usize) -> bool
    ensures { result ≡ is_full count }
{
    CATALOG_OBJECTS <= count
}
