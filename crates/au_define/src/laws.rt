//! Laws of what is decided.
ghost use Rattle.std.specs.Prelude.{◌≡◌, ◌≢◌, ◌<◌, ◌^◌, [], false, IsTrue, List, ℕ};
ghost use Rattle.std.specs.List.{AllByRecursion};
ghost use Rattle.au_base.specs.BuiltIn.{sys};
ghost use Rattle.au_base.specs.Codes.{DONE};
ghost use Rattle.au_base.specs.Naming.{IsName};
ghost use Rattle.au_base.specs.declared.numbers.ClientNo.{ClientNo};
ghost use Rattle.au_define.specs.Deciding.{Decides, IsWellFormed};
ghost use Rattle.au_define.specs.Names.{IsNamed};
ghost use Rattle.au_define.specs.Settings.{Setting, is_connected, setting_of};
ghost use Rattle.au_entries.specs.declared.decision.Busy.{Busy};
ghost use Rattle.au_entries.specs.declared.decision.Decision.{Decision};
ghost use Rattle.au_entries.specs.declared.kept.Kept.{Kept};
ghost use Rattle.au_entries.specs.Changing.{changed_all};
ghost use Rattle.au_entries.specs.Lawful.{IsLawful, IsWhole};
ghost use Rattle.au_entries.specs.Replaying.{AllGoOn, Conditions, has_user};
ghost use Rattle.rec_codec.specs.Changes.{IsChangeSpellable};
ghost use Rattle.rec_parts.specs.Parts.{privileges_in_order};
ghost use Rattle.sql_ast.specs.declared.expression.Expr.{Expr};
ghost use Rattle.sql_ast.specs.declared.statement.Statement.{Statement};
ghost use Rattle.sql_parse.specs.Statements.{Reads};

use au_base::same_is_equal;
use au_grants::changes_add_one_grant_at_most;
use au_priv::decisions_keep_limits;

/// A statement on tables, users, roles or grants has one decision; where it is refused it changes
/// nothing. The changes of a well-formed one go on from what is kept, where that is lawful and the
/// user whose statement it is is there; all is whole behind them, with no more of anything than there
/// may be, and SYS is a user, where it was so before; who is connected stays a user; and each change
/// has a spelling. It does nothing, and
/// states the laws for its callers.
pub fn definitions_hold()
    ensures one { (setting : Setting) (statement : Statement) (a b : Decision) → Decides setting statement a → Decides setting statement b → a ≡ b }
    ensures refused { (setting : Setting) (statement : Statement) (decision : Decision) → Decides setting statement decision → decision.code ≢ DONE → decision.changes ≡ [] }
    ensures goes { (conditions : Conditions) (kept : Kept) (user : List ℕ) (client : ClientNo) (busy : Busy) (statement : Statement) (decision : Decision)
        → IsWellFormed statement → IsLawful conditions kept → IsTrue (has_user kept user)
        → Decides (setting_of kept user client busy) statement decision → AllGoOn conditions false kept decision.changes }
    ensures whole { (conditions : Conditions) (tree : List ℕ → Expr) (kept : Kept) (user : List ℕ) (client : ClientNo) (busy : Busy) (statement : Statement) (decision : Decision)
        → IsLawful conditions kept → IsWhole kept → IsTrue (has_user kept sys) → Decides (setting_of kept user client busy) statement decision
        → IsTrue (has_user (changed_all tree decision.changes kept) sys) × IsWhole (changed_all tree decision.changes kept) }
    ensures stay { (conditions : Conditions) (tree : List ℕ → Expr) (kept : Kept) (user : List ℕ) (client : ClientNo) (busy : Busy) (statement : Statement) (decision : Decision) (who : List ℕ)
        → IsLawful conditions kept → IsWhole kept → IsTrue (has_user kept who) → IsTrue (is_connected (setting_of kept user client busy) who) → Decides (setting_of kept user client busy) statement decision
        → IsTrue (has_user (changed_all tree decision.changes kept) who) }
    ensures told { (setting : Setting) (statement : Statement) (decision : Decision) → Decides setting statement decision → (decision.code.0 < 2 ^ 32) × privileges_in_order.IsSpellable decision.used }
    ensures written { (setting : Setting) (statement : Statement) (decision : Decision)
        → IsNamed statement → IsName setting.user → IsWellFormed statement → Decides setting statement decision → AllByRecursion IsChangeSpellable decision.changes }
{
    changes_add_one_grant_at_most();
    decisions_keep_limits();
    same_is_equal();
}

/// A statement that a text is read as is well-formed. It does nothing, and states the law for its
/// callers.
pub fn read_statements_are_well_formed()
    ensures { (text : List ℕ) (statement : Statement) → Reads text statement → IsWellFormed statement }
{}
