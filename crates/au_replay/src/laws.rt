//! Laws of the rule by which a journal is replayed. Each does nothing, and states its law for its
//! callers.
ghost use Rattle.std.specs.Prelude.{◌≡◌, ◌↔◌, ℕ, Bool, false, is_ok, IsTrue, List, Option, Result};
ghost use Rattle.au_base.specs.declared.code.Code.{Code};
ghost use Rattle.au_entries.specs.declared.change.Change.{Change};
ghost use Rattle.au_entries.specs.declared.kept.Kept.{Kept};
ghost use Rattle.au_entries.specs.declared.table.Table.{Table};
ghost use Rattle.au_entries.specs.Changing.{changed_all};
ghost use Rattle.au_entries.specs.Lawful.{IsLawful, IsOrdered, IsWhole};
ghost use Rattle.au_entries.specs.Replaying.{AllGoOn, Conditions, GoesOn};
ghost use Rattle.au_expr.specs.declared.placed.Placed.{Placed};
ghost use Rattle.au_expr.specs.Resolving.{ResolvesAsCondition};
ghost use Rattle.au_replay.specs.declared.sight.Sight.{Sight};
ghost use Rattle.au_replay.specs.Reading.{conditions, ranges_of};
ghost use Rattle.au_replay.specs.Sights.{IsSorted, showable, shown};
ghost use Rattle.au_replay.specs.Touched.{IsWholeWhereTouched};
ghost use Rattle.sql_ast.specs.declared.expression.Expr.{Expr};
ghost use Rattle.sql_parse.specs.Conditions.{HasNoCondition, ReadsCondition};

/// A text is read where it is one condition by itself, as the tree that it is then, and as none
/// where it isn't. A tree is a truth exactly where it resolves as a condition over its columns.
pub fn conditions_resolve()
    ensures read { (text : List ℕ) (tree : Expr) → ReadsCondition text tree ↔ (IsTrue (conditions.is_read text) × (conditions.tree text ≡ tree)) }
    ensures unread { (text : List ℕ) → HasNoCondition text ↔ (conditions.is_read text ≡ false) }
    ensures truth { (over : Option Table) (tree : Expr) (answer : Result Placed Code) → ResolvesAsCondition (ranges_of over) tree answer → conditions.is_truth over tree ≡ is_ok answer }
{
    sql_parse::tree_is_condition();
}

/// What a sight shows suffices: a change goes on from all that is kept exactly where it does without
/// the trail, the archive timestamp and the last stamp; the one stands in order where the other does;
/// and what stands in order is sorted, as the tests of changes ask.
pub fn sights_suffice()
    ensures goes { (conditions : Conditions) (image : Bool) (kept : Kept) (change : Change) → GoesOn conditions image (showable kept) change ↔ GoesOn conditions image kept change }
    ensures ordered { (kept : Kept) → IsOrdered (showable kept) ↔ IsOrdered kept }
    ensures sorted { (sight : Sight) → IsOrdered (shown sight) → IsSorted sight }
{}

/// What is whole before a frame is so after it exactly where the frame's changes leave whole what
/// they touch.
pub fn touched_parts_suffice()
    ensures { (conditions : Conditions) (image : Bool) (kept : Kept) (changes : List Change) → IsLawful conditions kept → IsWhole kept → AllGoOn conditions image kept changes
        → IsWhole (changed_all conditions.tree changes kept) ↔ IsWholeWhereTouched changes (changed_all conditions.tree changes kept) }
{
    au_entries::changes_keep_laws();
}
