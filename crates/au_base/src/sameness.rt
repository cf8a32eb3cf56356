//! What is one and the same.
ghost use Rattle.std.specs.Prelude.{◌≡◌, ◌↔◌, IsTrue};
ghost use Rattle.au_base.specs.declared.action.Action.{Action};
ghost use Rattle.au_base.specs.declared.privilege.Privilege.{Privilege};
ghost use Rattle.au_base.specs.declared.table.TableName.{TableName};
ghost use Rattle.au_base.specs.Sameness.{same_action, same_privilege, same_table};

use crate::{Action, Privilege, TableName};

/// Whether both are one table's name.
pub fn is_same_table(a: &TableName, b: &TableName) -> bool
    ensures { result ≡ same_table a.now b.now }
{
    a.owner == b.owner && a.name == b.name
}

/// Whether both are one privilege.
pub fn is_same_privilege(a: Privilege, b: Privilege) -> bool
    ensures { result ≡ same_privilege a b }
{
    a.code() == b.code()
}

/// Whether both are one action.
pub fn is_same_action(a: Action, b: Action) -> bool
    ensures { result ≡ same_action a b }
{
    a.code() == b.code()
}

/// Tables, privileges and actions are the same exactly where they are equal. It does nothing, and
/// states the law for its callers.
pub fn same_is_equal()
    ensures table { (a b : TableName) → IsTrue (same_table a b) ↔ (a ≡ b) }
    ensures privilege { (a b : Privilege) → IsTrue (same_privilege a b) ↔ (a ≡ b) }
    ensures action { (a b : Action) → IsTrue (same_action a b) ↔ (a ≡ b) }
{}
