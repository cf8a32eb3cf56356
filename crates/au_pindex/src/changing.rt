//! Which changes are of policies.
ghost use Rattle.std.specs.Prelude.{◌≡◌};
ghost use Rattle.std.specs.List.{list_any};
ghost use Rattle.au_pindex.specs.Changing as spec;

use au_entries::Change;

/// Whether one of the changes is of audit policies or of their enablements, from which a user who is
/// dropped goes too.
pub(crate) fn change_policies(changes: &[Change]) -> bool
    ensures { result ≡ list_any spec.changes_policies changes.now }
{
    changes.iter().any(changes_policies)
}

fn changes_policies(change: &Change) -> bool
    ensures { result ≡ spec.changes_policies change.now }
{
    match change {
        Change::UserGone(_)
        | Change::Policy { .. }
        | Change::PolicyGone(_)
        | Change::Enable(_, _) => true,
        _ => false,
    }
}
