//! The lists of what is kept that have a limit.
ghost use Rattle.std.specs.Prelude.{◌≡◌};
ghost use Rattle.au_kept.specs.Quick.{put_count, puts};

use au_entries::Change;

/// Whose list an entry is put into.
#[derive(Clone, Copy)]
pub(crate) enum Kind {
    User,
    Role,
    Table,
    Policy,
    FineGrained,
    Grant,
}

/// How many of the changes put an entry into this list.
pub(crate) fn put_count(kind: Kind, changes: &[Change]) -> usize
    ensures { result ≡ put_count kind changes.now }
{
    changes.iter().filter(|change| puts(kind, change)).count()
}

fn puts(kind: Kind, change: &Change) -> bool
    ensures { result ≡ puts kind change.now }
{
    matches!(
        (kind, change),
        (Kind::User, Change::User(..))
            | (Kind::Role, Change::Role(..))
            | (Kind::Table, Change::Table(..))
            | (Kind::Policy, Change::Policy { .. })
            | (Kind::FineGrained, Change::Fga { .. })
            | (Kind::Grant, Change::SysGrant(..))
            | (Kind::Grant, Change::RoleGrant(..))
            | (Kind::Grant, Change::ObjGrant(..))
    )
}
