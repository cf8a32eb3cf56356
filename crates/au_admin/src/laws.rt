//! Laws of what is decided.
ghost use Rattle.std.specs.Prelude.{◌≡◌, ◌≢◌, ◌<◌, ◌≤◌, ◌^◌, [], None, false, IsTrue, List, ℕ};
ghost use Rattle.std.specs.List.{AllByRecursion};
ghost use Rattle.au_base.specs.Codes.{DONE};
ghost use Rattle.au_base.specs.Limits.{LAST_MOMENT};
ghost use Rattle.au_base.specs.Naming.{IsName};
ghost use Rattle.au_base.specs.declared.numbers.ClientNo.{ClientNo};
ghost use Rattle.au_base.specs.declared.numbers.Stamp.{Stamp};
ghost use Rattle.au_admin.specs.Deciding.{Decides};
ghost use Rattle.au_admin.specs.Going.{IsReadIn, IsTimely};
ghost use Rattle.au_admin.specs.Names.{IsAuditSpelled, IsNamed, IsShort};
ghost use Rattle.au_calls.specs.Reading.{wrong_code};
ghost use Rattle.au_calls.specs.Settings.{AuditSetting, setting_of};
ghost use Rattle.au_entries.specs.declared.decision.Busy.{Busy};
ghost use Rattle.au_entries.specs.declared.decision.Decision.{Decision};
ghost use Rattle.au_entries.specs.declared.decision.ReadCondition.{ReadCondition};
ghost use Rattle.au_entries.specs.declared.kept.Kept.{Kept};
ghost use Rattle.au_entries.specs.Changing.{changed_all};
ghost use Rattle.au_entries.specs.Lawful.{IsLawful, IsWhole};
ghost use Rattle.au_entries.specs.Replaying.{AllGoOn, Conditions, has_user};
ghost use Rattle.rec_codec.specs.Changes.{IsChangeSpellable};
ghost use Rattle.rec_parts.specs.Parts.{privileges_in_order};
ghost use Rattle.sql_ast.specs.declared.expression.Expr.{Expr};
ghost use Rattle.sql_ast.specs.declared.statement.Statement.{Statement};
ghost use Rattle.sql_parse.specs.Statements.{Reads};

use au_base::same_is_equal;
use au_calls::{calls_hold, rights_are_one};

/// A statement on audit policies, or a call of a package, has one decision; where it is refused it
/// changes nothing, purges nothing and forgets nothing; and its changes go on from what is kept,
/// where that is lawful, no moment is over the last one, and a condition that isn't refused can be
/// read and is a truth. All is whole behind them where it was before, and each user stays one. The
/// code and the privileges of the decision can be written into a record, and each change has a
/// spelling, where what is kept of enablements and fine-grained policies has one. It does nothing, and
/// states the laws for its callers.
pub fn administration_holds()
    ensures one { (setting : AuditSetting) (statement : Statement) (a b : Decision) → Decides setting statement a → Decides setting statement b → a ≡ b }
    ensures refused { (setting : AuditSetting) (statement : Statement) (decision : Decision) → Decides setting statement decision → decision.code ≢ DONE
        → (decision.changes ≡ []) × (decision.purge ≡ None) × (decision.forgets ≡ []) }
    ensures goes { (conditions : Conditions) (kept : Kept) (user : List ℕ) (client : ClientNo) (busy : Busy) (stamp : Stamp) (read : ReadCondition) (statement : Statement) (decision : Decision)
        → IsLawful conditions kept → stamp.0 ≤ LAST_MOMENT → IsTimely statement → IsReadIn conditions kept user statement read
        → Decides (setting_of kept user client busy stamp read) statement decision → AllGoOn conditions false kept decision.changes }
    ensures whole { (tree : List ℕ → Expr) (kept : Kept) (user : List ℕ) (client : ClientNo) (busy : Busy) (stamp : Stamp) (read : ReadCondition) (statement : Statement) (decision : Decision)
        → IsWhole kept → Decides (setting_of kept user client busy stamp read) statement decision → IsWhole (changed_all tree decision.changes kept) }
    ensures stay { (tree : List ℕ → Expr) (kept : Kept) (user : List ℕ) (client : ClientNo) (busy : Busy) (stamp : Stamp) (read : ReadCondition) (statement : Statement) (decision : Decision) (who : List ℕ)
        → IsTrue (has_user kept who) → Decides (setting_of kept user client busy stamp read) statement decision → IsTrue (has_user (changed_all tree decision.changes kept) who) }
    ensures told { (setting : AuditSetting) (statement : Statement) (decision : Decision) → (wrong_code setting.read).0 < 2 ^ 32 → Decides setting statement decision
        → (decision.code.0 < 2 ^ 32) × privileges_in_order.IsSpellable decision.used }
    ensures written { (conditions : Conditions) (kept : Kept) (user : List ℕ) (client : ClientNo) (busy : Busy) (stamp : Stamp) (read : ReadCondition) (statement : Statement) (decision : Decision)
        → IsLawful conditions kept → IsWhole kept → IsAuditSpelled kept → IsNamed statement → IsShort statement → IsTimely statement → IsName user → stamp.0 ≤ LAST_MOMENT
        → Decides (setting_of kept user client busy stamp read) statement decision → AllByRecursion IsChangeSpellable decision.changes }
{
    rights_are_one();
    calls_hold();
    same_is_equal();
}

/// The moments in a statement that a text is read as aren't over the last one. It does nothing, and
/// states the law for its callers.
pub fn read_statements_are_timely()
    ensures { (text : List ℕ) (statement : Statement) → Reads text statement → IsTimely statement }
{}

/// A statement that a text is read as has no more parts, and no longer texts, than the text of a
/// statement may have bytes. It does nothing, and states the law for its callers.
pub fn read_statements_are_short()
    ensures { (text : List ℕ) (statement : Statement) → Reads text statement → IsShort statement }
{}
