//! The lists of the catalogue that edits put entries into.
ghost use Rattle.std.specs.Prelude.{◌≡◌};
ghost use Rattle.au_catalog.specs.descent.Editing.{put_count, puts};

use crate::edit::Edit;

/// Whose list an entry is put into.
#[derive(Clone, Copy)]
pub enum Kind {
    User,
    Role,
    Table,
    Policy,
    Enablement,
    FineGrained,
}

/// How many of the edits put an entry into this list.
pub fn put_count(kind: Kind, edits: &[Edit]) -> usize
    ensures { result ≡ put_count kind edits.now }
{
    edits.iter().filter(|edit| puts(kind, edit)).count()
}

fn puts(kind: Kind, edit: &Edit) -> bool
    ensures { result ≡ puts kind edit.now }
{
    matches!(
        (kind, edit),
        (Kind::User, Edit::PutUser(..))
            | (Kind::Role, Edit::PutRole(..))
            | (Kind::Table, Edit::PutTable(..))
            | (Kind::Policy, Edit::PutPolicy(..))
            | (Kind::Enablement, Edit::Enable(..))
            | (Kind::FineGrained, Edit::PutFga(..))
    )
}
