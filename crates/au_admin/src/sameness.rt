//! What enablements are the same.
ghost use Rattle.std.specs.Prelude.{◌≡◌, ◌↔◌, IsTrue, List, ℕ};
ghost use Rattle.au_define.specs.Rules.{Tells};
ghost use Rattle.au_entries.specs.declared.policy.Enabled.{Enabled};
ghost use Rattle.au_entries.specs.declared.policy.Outcomes.{Outcomes};

use au_base::{List, Name};
use au_entries::{Enabled, Outcomes};

/// Whether both are one enablement: the same users in the same order, with the same outcomes.
pub fn is_same_enabled(a: &Enabled, b: &Enabled) -> bool
    ensures { Tells result (a.now ≡ b.now) }
{
    match a {
        Enabled::Off => is_off(b),
        Enabled::By(users) => is_by(users, b),
        Enabled::Except(users, outcomes) => is_except(users, *outcomes, b),
    }
}

fn is_off(enabled: &Enabled) -> bool
    ensures { Tells result (Enabled.Off ≡ enabled.now) }
{
    match enabled {
        Enabled::Off => true,
        Enabled::By(_) | Enabled::Except(_, _) => false,
    }
}

fn is_by(users: &List<(Name, Outcomes)>, enabled: &Enabled) -> bool
    ensures { Tells result (Enabled.By users.now ≡ enabled.now) }
{
    match enabled {
        Enabled::By(others) => are_listed(users.as_slice(), others.as_slice()),
        Enabled::Off | Enabled::Except(_, _) => false,
    }
}

fn is_except(users: &List<Name>, outcomes: Outcomes, enabled: &Enabled) -> bool
    ensures { Tells result (Enabled.Except users.now outcomes ≡ enabled.now) }
{
    match enabled {
        Enabled::Except(others, standing) => {
            are_named(users.as_slice(), others.as_slice()) && is_same_outcomes(outcomes, *standing)
        }
        Enabled::Off | Enabled::By(_) => false,
    }
}

fn are_listed(a: &[(Name, Outcomes)], b: &[(Name, Outcomes)]) -> bool
    ensures { Tells result (a.now ≡ b.now) }
{
    same_entries_are_equal();
    a == b
}

/// Listed users are the same exactly where they are equal. It does nothing, and states the law for
/// its callers.
fn same_entries_are_equal()
    ensures { (a b : List ℕ × Outcomes) → IsTrue (⟦<(Name, Outcomes) as PartialEq>⟧.eq a b) ↔ (a ≡ b) }
{}

fn are_named(a: &[Name], b: &[Name]) -> bool
    ensures { Tells result (a.now ≡ b.now) }
{
    a == b
}

fn is_same_outcomes(a: Outcomes, b: Outcomes) -> bool
    ensures { Tells result (a ≡ b) }
{
    a.success == b.success && a.failure == b.failure
}
