//! Laws of asking policies.
ghost use Rattle.std.specs.Prelude.{[], ℕ, Bool, List, None, IsTrue, map};
ghost use Rattle.au_base.specs.Order.{is_in_order, name_before};
ghost use Rattle.au_catalog.specs.Settling.{catalog_of};
ghost use Rattle.au_entries.specs.Demand.{demanding};
ghost use Rattle.au_entries.specs.Lawful.{IsLawful};
ghost use Rattle.au_entries.specs.Replaying.{Conditions};
ghost use Rattle.au_entries.specs.declared.kept.Kept.{Kept};
ghost use Rattle.au_entries.specs.declared.facts.Facts.{Facts};
ghost use Rattle.au_entries.specs.declared.policy.AuditPolicy.{AuditPolicy};
ghost use Rattle.au_entries.specs.declared.policy.Enabled.{Enabled};
ghost use Rattle.au_expr.specs.Resolving.{IsCondition};
ghost use Rattle.au_grants.specs.declared.grants.Grants.{Grants};
ghost use Rattle.au_policy.specs.Asking.{CanBeAsked};
ghost use Rattle.sql_ast.specs.declared.expression.Expr.{Expr};

/// The audit policies of a catalogue of what is lawful can be asked, where each tree that is a truth
/// over no table resolves as one. It does nothing, and states the law for its callers.
pub fn lawful_policies_can_be_asked()
    ensures { (conditions : Conditions) (kept : Kept) → ((tree : Expr) → IsTrue (conditions.is_truth None tree) → IsCondition [] tree) → IsLawful conditions kept → CanBeAsked (catalog_of kept) }
{}

/// The names of the policies that are asked and demand a record stand in byte order, where the
/// policies do. It does nothing, and states the law for its callers.
pub fn demanding_names_stand_in_order()
    ensures { (when : AuditPolicy → Bool) (grants : Grants) (enabled : List (List ℕ × Enabled)) (policies : List AuditPolicy) (facts : Facts)
        → IsTrue (is_in_order name_before (map (λ policy. policy.name) policies)) → IsTrue (is_in_order name_before (demanding when grants enabled policies facts)) }
{}
