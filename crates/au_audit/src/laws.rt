//! Laws of what fires and of what is demanded.
ghost use Rattle.std.specs.Prelude.{◌≢◌, ◌≤◌, ℕ, IsTrue, List, [], length, map};
ghost use Rattle.au_base.specs.declared.numbers.SessionNo.{SessionNo};
ghost use Rattle.au_base.specs.declared.cell.Cell.{Cell};
ghost use Rattle.au_base.specs.declared.code.Code.{Code};
ghost use Rattle.au_base.specs.declared.table.TableName.{TableName};
ghost use Rattle.au_base.specs.declared.truth.Truth.{Truth};
ghost use Rattle.au_base.specs.Order.{fields_before, is_in_order, name_before};
ghost use Rattle.au_entries.specs.declared.facts.Facts.{Facts};
ghost use Rattle.au_entries.specs.declared.fine_grained.FgaPolicy.{FgaPolicy};
ghost use Rattle.au_entries.specs.declared.policy.AuditPolicy.{AuditPolicy};
ghost use Rattle.au_entries.specs.declared.policy.Enabled.{Enabled};
ghost use Rattle.au_entries.specs.declared.results.KeptResults.{KeptResults};
ghost use Rattle.au_entries.specs.Changing.{fga_fields};
ghost use Rattle.au_audit.specs.Conditions.{Result, demanded_of, forgetting, result_before, results_after};
ghost use Rattle.au_audit.specs.Firing.{RowFacts, fired, record_before};
ghost use Rattle.au_audit.specs.Statements.{IsPlaced, recorded_text};
ghost use Rattle.au_grants.specs.declared.grants.Grants.{Grants};
ghost use Rattle.sql_ast.specs.declared.expression.Expr.{Expr};
ghost use Rattle.sql_ast.specs.declared.statement.Statement.{Statement};

/// The fine-grained policies that demand a record stand in the order of their records, each once:
/// by the policy's name, then the owner, then the table. The policies of the catalogue stand in
/// order. It does nothing, and states the law for its callers.
pub fn fired_policies_stand_in_order()
    ensures { (truth : TableName → Expr → List Cell → Truth) (code : Code) (facts : RowFacts) (policies : List FgaPolicy)
        → IsTrue (is_in_order fields_before (map (λ policy. fga_fields policy.name.table policy.name.policy) policies))
        → IsTrue (is_in_order record_before (fired truth code facts policies)) }
{}

/// The results of conditions that are kept stand in the byte order of their policies after each
/// statement, where they did before: those of the statement's session and those of the instance,
/// with what was learnt and without what was forgotten; and those of another session, which forgets
/// alone. The policies of the catalogue stand in order. It does nothing, and states the law for its
/// callers.
pub fn kept_results_stay_in_order()
    ensures session { (truth : Expr → Truth) (number : SessionNo) (grants : Grants) (policies : List AuditPolicy) (enabled : List (List ℕ × Enabled)) (kept : KeptResults) (facts : Facts) (forgets : List (List ℕ))
        → IsTrue (is_in_order name_before (map (λ policy. policy.name) policies)) → IsTrue (is_in_order result_before kept.session)
        → IsTrue (is_in_order result_before (results_after policies (demanded_of truth number grants policies enabled kept facts).learnt forgets kept).session) }
    ensures instance { (truth : Expr → Truth) (number : SessionNo) (grants : Grants) (policies : List AuditPolicy) (enabled : List (List ℕ × Enabled)) (kept : KeptResults) (facts : Facts) (forgets : List (List ℕ))
        → IsTrue (is_in_order name_before (map (λ policy. policy.name) policies)) → IsTrue (is_in_order result_before kept.instance)
        → IsTrue (is_in_order result_before (results_after policies (demanded_of truth number grants policies enabled kept facts).learnt forgets kept).instance) }
    ensures forgotten { (forgets : List (List ℕ)) (results : List Result) → IsTrue (is_in_order result_before results) → IsTrue (is_in_order result_before (forgetting forgets results)) }
{}

/// The recorded text of a statement is no longer than the text as it was given, and isn't empty
/// where that isn't. It does nothing, and states the law for its callers.
pub fn recorded_texts_fit()
    ensures some { (text : List ℕ) (statement : Statement) → IsPlaced text statement → text ≢ [] → 1 ≤ length (recorded_text text statement) }
    ensures fits { (text : List ℕ) (statement : Statement) → IsPlaced text statement → length (recorded_text text statement) ≤ length text }
{}
