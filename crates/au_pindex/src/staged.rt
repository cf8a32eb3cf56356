//! Changes of an index that are ready to be made.
ghost use Rattle.std.specs.Prelude.{◌≡◌, IfOk, None};
ghost use Rattle.au_pindex.specs.descent.Edits as edits;

use crate::shift::Shift;
use au_base::{Action, List, Memory, Name, Privilege, TableName};
use au_entries::AuditPolicy;
use au_expr::Resolved;

/// What changes make of an index, ready for `Index::settle`, which makes it with no memory.
#[derive(Drop)]
pub struct StagedIndex {
    pub(crate) edit: IndexEdit,
}

/// An edit of an index: first places shift and a condition changes, then a place is added.
#[derive(Drop)]
pub(crate) struct IndexEdit {
    pub shift: Option<Shift>,
    pub condition: ConditionEdit,
    pub joining: Option<Joining>,
}

/// What becomes of the conditions, which stand by the places of their policies.
#[derive(Drop)]
pub(crate) enum ConditionEdit {
    /// They stay.
    Stays,
    /// The condition of a new policy stands at the place.
    Opens(usize, Option<Resolved>),
    /// The policy at the place has this condition now.
    Sets(usize, Option<Resolved>),
    /// The policy at the place is gone.
    Closes(usize),
}

/// A policy whose place joins the buckets of all that its parts name. Its condition is left out.
#[derive(Drop)]
pub(crate) struct Joining {
    pub place: usize,
    pub policy: AuditPolicy,
}

/// No edit.
pub(crate) fn no_edit() -> IndexEdit
    ensures { result ≡ edits.no_edit }
{
    IndexEdit {
        shift: None,
        condition: ConditionEdit::Stays,
        joining: None,
    }
}

/// A copy of the policy without its condition.
pub(crate) fn parts_of(policy: &AuditPolicy) -> Result<AuditPolicy, Memory>
    ensures { IfOk result (λ copy. copy ≡ edits.without_condition policy.now) }
{
    policy_of(
        &policy.name,
        &policy.privileges,
        &policy.actions,
        &policy.roles,
    )
}

/// The policy of these parts, without a condition.
pub(crate) fn policy_of(
    name: &Name,
    privileges: &List<Privilege>,
    actions: &List<(Action, Option<TableName>)>,
    roles: &List<Name>,
) -> Result<AuditPolicy, Memory>
    ensures { IfOk result (λ policy. policy ≡ record { name = name.now; privileges = privileges.now; actions = actions.now; roles = roles.now; when = None }) }
{
    Ok(AuditPolicy {
        name: name.clone()?,
        privileges: privileges.clone()?,
        actions: actions.clone()?,
        roles: roles.clone()?,
        when: None,
    })
}
