//! An index that is edited. None of it takes memory.
ghost use Rattle.std.specs.Prelude.{◌≡◌, ◌≤◌, ◌<◌, ◌+◌, ◌++◌, ◌∷◌, ◌^◌, ◌||◌, List as Sequence, ℕ, true, drop as drop_list, is_some, length, map, take, vec_capacity, vec_len};
ghost use Rattle.au_entries.specs.declared.policy.AuditPolicy.{AuditPolicy};
ghost use Rattle.au_entries.specs.declared.policy.Enabled.{Enabled};
ghost use Rattle.au_pindex.specs.Indexing.{AreBucketsOf, condition_of};
ghost use Rattle.au_pindex.specs.descent.Rooms.{KeepsRoom};
ghost use Rattle.au_pindex.specs.descent.Settling.{AllHavePlaces, AreEdited, AreJoinedBy, AreShiftedBy, HaveSamePlaces};
ghost use Rattle.au_pindex.specs.descent.Shifting.{AreShifted};
ghost use Rattle.au_pindex.specs.descent.Fitting.{FitsConditions, FitsEdit, FitsJoining};
ghost use Rattle.au_pindex.specs.descent.Leading.{Leads, conditions_after};

use crate::bucketed::Bucketed;
use crate::buckets::{drop_empty, shift_all};
use crate::index::Index;
use crate::joining::join_policy;
use crate::shift::Shift;
use crate::staged::{ConditionEdit, IndexEdit, Joining};
use au_expr::Resolved;

/// Edits the index, which becomes that of the policies and enablements to which the edit leads.
pub(crate) fn edit_index(index: &mut Index, edit: IndexEdit)
    requires { FitsEdit edit index.old }
    ensures { (enabled later : Sequence (Sequence ℕ × Enabled)) (policies changed : Sequence AuditPolicy)
        → Leads enabled policies later changed edit → AreBucketsOf enabled policies index.old.buckets → index.old.conditions.items ≡ map condition_of policies
        → AreBucketsOf later changed index.new.buckets × (index.new.conditions.items ≡ map condition_of changed) }
{
    conditions_are_few(index.conditions.as_slice());
    let IndexEdit {
        shift,
        condition,
        joining,
    } = edit;
    edit_buckets(&mut index.buckets, &shift, &joining);
    edit_conditions(&mut index.conditions, condition);
}

// There are fewer than 2 ^ 64 conditions. It does nothing, and states it for its callers.
fn conditions_are_few(conditions: &[Option<Resolved>])
    ensures { length conditions.now < 2 ^ 64 }
{
    let _conditions = conditions.iter();
}

fn edit_buckets(buckets: &mut Bucketed, shift: &Option<Shift>, joining: &Option<Joining>)
    requires { FitsJoining joining.now buckets.old }
    ensures edited { AreEdited shift.now joining.now buckets.old buckets.new }
    ensures left { (is_some shift.now || is_some joining.now) ≡ true → AllHavePlaces buckets.new }
{
    shift_where(buckets, shift);
    join_where(buckets, joining);
    drop_empty_where(buckets, shift, joining);
}

// Shifts the places of all buckets, where there is a shift.
fn shift_where(buckets: &mut Bucketed, shift: &Option<Shift>)
    ensures { AreShiftedBy shift.now buckets.old buckets.new }
{
    match shift {
        Some(shift) => shift_buckets(buckets, shift),
        None => {}
    }
}

fn shift_buckets(buckets: &mut Bucketed, shift: &Shift)
    ensures shifted { AreShifted shift.now buckets.old buckets.new }
    ensures rooms { KeepsRoom buckets.old buckets.new }
{
    shift_all(&mut buckets.actions, shift);
    shift_all(&mut buckets.tables, shift);
    shift_all(&mut buckets.privileges, shift);
    shift_all(&mut buckets.roles, shift);
}

// Adds the place of the policy that joins buckets, where one does.
fn join_where(buckets: &mut Bucketed, joining: &Option<Joining>)
    requires { FitsJoining joining.now buckets.old }
    ensures { AreJoinedBy joining.now buckets.old buckets.new }
{
    match joining {
        Some(joining) => join_policy(buckets, &joining.policy, joining.place),
        None => {}
    }
}

// Takes away the buckets that have no place, where places shift or join. Where none do, buckets aren't
// gone over.
fn drop_empty_where(buckets: &mut Bucketed, shift: &Option<Shift>, joining: &Option<Joining>)
    ensures places { HaveSamePlaces buckets.old buckets.new }
    ensures left { (is_some shift.now || is_some joining.now) ≡ true → AllHavePlaces buckets.new }
{
    if edits_buckets(shift, joining) {
        drop_all_empty(buckets);
    }
}

fn edits_buckets(shift: &Option<Shift>, joining: &Option<Joining>) -> bool
    ensures { result ≡ (is_some shift.now || is_some joining.now) }
{
    shift.is_some() || joining.is_some()
}

fn drop_all_empty(buckets: &mut Bucketed)
    ensures places { HaveSamePlaces buckets.old buckets.new }
    ensures left { AllHavePlaces buckets.new }
{
    drop_empty(&mut buckets.actions);
    drop_empty(&mut buckets.tables);
    drop_empty(&mut buckets.privileges);
    drop_empty(&mut buckets.roles);
}

fn edit_conditions(conditions: &mut Vec<Option<Resolved>>, edit: ConditionEdit)
    requires { FitsConditions edit conditions.old }
    ensures { conditions.new.items ≡ conditions_after edit conditions.old.items }
{
    match edit {
        ConditionEdit::Stays => {}
        ConditionEdit::Opens(place, condition) => insert_reserved(conditions, place, condition),
        ConditionEdit::Sets(place, condition) => set_condition(conditions, place, condition),
        ConditionEdit::Closes(place) => drop(conditions.remove(place)),
    }
}

// Adds the condition at the place. There is room for it.
fn insert_reserved(
    conditions: &mut Vec<Option<Resolved>>,
    place: usize,
    condition: Option<Resolved>,
)
    requires place { place ≤ length conditions.old.items }
    requires room { vec_len conditions.old < vec_capacity conditions.old }
    ensures { conditions.new.items ≡ take place conditions.old.items ++ condition ∷ drop_list place conditions.old.items }
{
    let inserted = conditions.insert(place, condition);
    drop(inserted);
}

fn set_condition(conditions: &mut Vec<Option<Resolved>>, place: usize, condition: Option<Resolved>)
    requires place { place < length conditions.old.items }
    ensures { conditions.new.items ≡ take place conditions.old.items ++ condition ∷ drop_list (place + 1) conditions.old.items }
{
    conditions[place] = condition;
}
