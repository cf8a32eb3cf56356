//! Laws of fine-grained policies.
ghost use Rattle.std.specs.Prelude.{◌≡◌, ◌≢◌, ◌∷◌, [], List, Some, IsTrue};
ghost use Rattle.au_audit.specs.Firing.{RowFacts, fired};
ghost use Rattle.au_base.specs.declared.cell.Cell.{Cell};
ghost use Rattle.au_base.specs.declared.code.Code.{Code};
ghost use Rattle.au_base.specs.declared.table.TableName.{TableName};
ghost use Rattle.au_base.specs.declared.truth.Truth.{Truth};
ghost use Rattle.au_catalog.specs.Settling.{catalog_of};
ghost use Rattle.au_entries.specs.Lawful.{IsLawful};
ghost use Rattle.au_entries.specs.Replaying.{Conditions};
ghost use Rattle.au_entries.specs.declared.fine_grained.FgaPolicy.{FgaPolicy};
ghost use Rattle.au_entries.specs.declared.kept.Kept.{Kept};
ghost use Rattle.au_entries.specs.declared.table.Table.{Table};
ghost use Rattle.au_expr.specs.Resolving.{IsCondition};
ghost use Rattle.au_fga.specs.Testing.{CanBeTested, range_of};
ghost use Rattle.sql_ast.specs.declared.expression.Expr.{Expr};

/// The fine-grained policies of a catalogue of what is lawful can be tested, where each tree that is
/// a truth over a table resolves as one. It does nothing, and states the law for its callers.
pub fn lawful_policies_can_be_tested()
    ensures { (conditions : Conditions) (kept : Kept) → ((table : Table) (tree : Expr) → IsTrue (conditions.is_truth (Some table) tree) → IsCondition (range_of table ∷ []) tree) → IsLawful conditions kept → CanBeTested (catalog_of kept) }
{}

/// A statement that is refused makes no fine-grained policy demand a record. It does nothing, and
/// states the law for its callers.
pub fn refused_statements_fire_nothing()
    ensures { (truth : TableName → Expr → List Cell → Truth) (code : Code) (facts : RowFacts) (policies : List FgaPolicy) → code.0 ≢ 0 → fired truth code facts policies ≡ [] }
{}
