//! Laws of what changes make of what is kept, and of what policies demand.
ghost use Rattle.std.specs.Prelude.{◌≡◌, ◌≢◌, ◌≤◌, ◌+◌, ◌⊎◌, ℕ, Bool, IsTrue, List, Option, length, map};
ghost use Rattle.std.specs.List.{AllByRecursion, Contains};
ghost use Rattle.au_base.specs.BuiltIn.{ora_mandatory};
ghost use Rattle.au_base.specs.Limits.{INSTANCES, LAST_MOMENT};
ghost use Rattle.au_base.specs.Order.{is_in_order, name_before};
ghost use Rattle.au_base.specs.declared.numbers.Stamp.{Stamp};
ghost use Rattle.au_entries.specs.declared.change.Change.{Change};
ghost use Rattle.au_entries.specs.declared.facts.Facts.{Facts};
ghost use Rattle.au_entries.specs.declared.kept.Kept.{Kept};
ghost use Rattle.au_entries.specs.declared.policy.AuditPolicy.{AuditPolicy};
ghost use Rattle.au_entries.specs.declared.policy.Enabled.{Enabled};
ghost use Rattle.au_entries.specs.Changing.{changed, changed_all};
ghost use Rattle.au_entries.specs.Demand.{demanded};
ghost use Rattle.au_entries.specs.declared.trail_record.Record.{Record};
ghost use Rattle.au_entries.specs.Frames.{PartsGoOn, after_parts};
ghost use Rattle.au_entries.specs.Lawful.{IsLawful, IsOrdered, IsWhole};
ghost use Rattle.au_entries.specs.Replaying.{AllGoOn, Conditions, GoesOn, IsArchive};
ghost use Rattle.au_grants.specs.declared.grants.Grants.{Grants};

/// All that is kept stands in order after each change that goes on, where it did before: each list
/// in the byte order of its names, no enablement is for nobody, and no policy has the name of what
/// is mandatory. It does nothing, and states the law for its callers.
pub fn changes_keep_order()
    ensures one { (conditions : Conditions) (image : Bool) (kept : Kept) (change : Change) → IsOrdered kept → GoesOn conditions image kept change → IsOrdered (changed conditions.tree change kept) }
    ensures all { (conditions : Conditions) (image : Bool) (kept : Kept) (changes : List Change) → IsOrdered kept → AllGoOn conditions image kept changes → IsOrdered (changed_all conditions.tree changes kept) }
{
    au_grants::changes_keep_order();
}

/// All that is kept is lawful after each change that goes on, where it was before: it stands in
/// order, what stands on something finds it, conditions are truths over their tables, and numbers
/// are within their bounds. It does nothing, and states the law for its callers.
pub fn changes_keep_laws()
    ensures one { (conditions : Conditions) (image : Bool) (kept : Kept) (change : Change) → IsLawful conditions kept → GoesOn conditions image kept change → IsLawful conditions (changed conditions.tree change kept) }
    ensures all { (conditions : Conditions) (image : Bool) (kept : Kept) (changes : List Change) → IsLawful conditions kept → AllGoOn conditions image kept changes → IsLawful conditions (changed_all conditions.tree changes kept) }
{
    au_grants::changes_keep_order();
    au_grants::changes_keep_no_circle();
}

/// All that is kept is lawful and whole after each frame that goes on, where it was lawful before:
/// then rows fit their columns, keys differ and limits are kept too. It does nothing, and states the
/// law for its callers.
pub fn frames_keep_laws()
    ensures lawful { (conditions : Conditions) (image : Bool) (kept : Kept) (stamp : Stamp) (purge : Option (Option Stamp)) (changes : List Change) (records : List Record)
        → IsLawful conditions kept → PartsGoOn conditions image kept stamp changes → stamp.0 ≤ LAST_MOMENT → IsLawful conditions (after_parts conditions.tree stamp purge changes records kept) }
    ensures whole { (conditions : Conditions) (image : Bool) (kept : Kept) (stamp : Stamp) (purge : Option (Option Stamp)) (changes : List Change) (records : List Record)
        → PartsGoOn conditions image kept stamp changes → IsWhole (after_parts conditions.tree stamp purge changes records kept) }
{
    au_grants::changes_keep_order();
    au_grants::changes_keep_no_circle();
}

/// The archive timestamp and the number of the instance stay within their bounds after each change
/// that goes on. It does nothing, and states the law for its callers.
pub fn changes_keep_bounds()
    ensures archive { (conditions : Conditions) (image : Bool) (kept : Kept) (change : Change) → IsArchive kept.archive → GoesOn conditions image kept change → IsArchive (changed conditions.tree change kept).archive }
    ensures instance { (conditions : Conditions) (image : Bool) (kept : Kept) (change : Change) → kept.instance ≤ INSTANCES → GoesOn conditions image kept change → (changed conditions.tree change kept).instance ≤ INSTANCES }
{}

/// The names of the policies that demand a record stand in byte order, each once, where the policies
/// stand so and none has the name of what is mandatory. Each is that name or a policy's, so that
/// there is at most one more than policies. It does nothing, and states the law for its callers.
pub fn demanded_names_stand_in_order()
    ensures few { (when : AuditPolicy → Bool) (grants : Grants) (enabled : List (List ℕ × Enabled)) (policies : List AuditPolicy) (facts : Facts) → length (demanded when grants enabled policies facts) ≤ length policies + 1 }
    ensures from { (when : AuditPolicy → Bool) (grants : Grants) (enabled : List (List ℕ × Enabled)) (policies : List AuditPolicy) (facts : Facts) (name : List ℕ)
        → Contains (demanded when grants enabled policies facts) name → (ora_mandatory ≡ name) ⊎ Contains (map (λ policy. policy.name) policies) name }
    ensures ordered { (when : AuditPolicy → Bool) (grants : Grants) (enabled : List (List ℕ × Enabled)) (policies : List AuditPolicy) (facts : Facts)
        → IsTrue (is_in_order name_before (map (λ policy. policy.name) policies)) → AllByRecursion (λ policy. policy.name ≢ ora_mandatory) policies
        → IsTrue (is_in_order name_before (demanded when grants enabled policies facts)) }
{}
