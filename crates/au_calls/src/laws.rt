//! Laws of what is decided of calls.
ghost use Rattle.std.specs.Prelude.{◌≡◌, ◌≢◌, ◌<◌, ◌≤◌, ◌^◌, [], None, false, IsTrue, List, ℕ};
ghost use Rattle.std.specs.List.{AllByRecursion};
ghost use Rattle.au_base.specs.Codes.{DONE};
ghost use Rattle.au_base.specs.Limits.{LAST_MOMENT};
ghost use Rattle.au_base.specs.Naming.{IsName};
ghost use Rattle.au_base.specs.declared.numbers.ClientNo.{ClientNo};
ghost use Rattle.au_base.specs.declared.numbers.Stamp.{Stamp};
ghost use Rattle.au_calls.specs.declared.rights.AuditRights.{AuditRights};
ghost use Rattle.au_calls.specs.Calling.{DecidesCall, IsCallRead, IsCallTimely};
ghost use Rattle.au_calls.specs.Reading.{wrong_code};
ghost use Rattle.au_calls.specs.Rights.{AreRights};
ghost use Rattle.au_calls.specs.Settings.{AuditSetting, setting_of};
ghost use Rattle.au_calls.specs.Written.{AreCallTexts, AreFgaSpelled, IsCallShort};
ghost use Rattle.au_entries.specs.declared.decision.Busy.{Busy};
ghost use Rattle.au_entries.specs.declared.decision.Decision.{Decision};
ghost use Rattle.au_entries.specs.declared.decision.ReadCondition.{ReadCondition};
ghost use Rattle.au_entries.specs.declared.kept.Kept.{Kept};
ghost use Rattle.au_entries.specs.Changing.{changed_all};
ghost use Rattle.au_entries.specs.Lawful.{IsLawful, IsWhole};
ghost use Rattle.au_entries.specs.Replaying.{AllGoOn, Conditions, has_user};
ghost use Rattle.rec_codec.specs.Changes.{IsChangeSpellable};
ghost use Rattle.rec_parts.specs.Parts.{privileges_in_order};
ghost use Rattle.sql_ast.specs.declared.call.Call.{Call};
ghost use Rattle.sql_ast.specs.declared.expression.Expr.{Expr};

/// A user has one answer to which rights it holds. It does nothing, and states the law for its
/// callers.
pub fn rights_are_one()
    ensures { (setting : AuditSetting) (a b : AuditRights) → AreRights setting a → AreRights setting b → a ≡ b }
{}

/// A call of a package has one decision; where it is refused it changes nothing, purges nothing and
/// forgets nothing; and its changes go on from what is kept, where that is lawful, no moment is over
/// the last one, and a condition that isn't refused can be read and is a truth. All is whole behind
/// them where it was before, and each user stays one. The code and the privileges of the decision can
/// be written into a record, and each change has a spelling, where the fine-grained policies that are
/// kept have one. It does nothing, and states the laws for its callers.
pub fn calls_hold()
    ensures one { (setting : AuditSetting) (call : Call) (a b : Decision) → DecidesCall setting call a → DecidesCall setting call b → a ≡ b }
    ensures refused { (setting : AuditSetting) (call : Call) (decision : Decision) → DecidesCall setting call decision → decision.code ≢ DONE
        → (decision.changes ≡ []) × (decision.purge ≡ None) × (decision.forgets ≡ []) }
    ensures goes { (conditions : Conditions) (kept : Kept) (user : List ℕ) (client : ClientNo) (busy : Busy) (stamp : Stamp) (read : ReadCondition) (call : Call) (decision : Decision)
        → IsLawful conditions kept → stamp.0 ≤ LAST_MOMENT → IsCallTimely call → IsCallRead conditions kept user call read
        → DecidesCall (setting_of kept user client busy stamp read) call decision → AllGoOn conditions false kept decision.changes }
    ensures whole { (tree : List ℕ → Expr) (kept : Kept) (user : List ℕ) (client : ClientNo) (busy : Busy) (stamp : Stamp) (read : ReadCondition) (call : Call) (decision : Decision)
        → IsWhole kept → DecidesCall (setting_of kept user client busy stamp read) call decision → IsWhole (changed_all tree decision.changes kept) }
    ensures stay { (tree : List ℕ → Expr) (kept : Kept) (user : List ℕ) (client : ClientNo) (busy : Busy) (stamp : Stamp) (read : ReadCondition) (call : Call) (decision : Decision) (who : List ℕ)
        → IsTrue (has_user kept who) → DecidesCall (setting_of kept user client busy stamp read) call decision → IsTrue (has_user (changed_all tree decision.changes kept) who) }
    ensures told { (setting : AuditSetting) (call : Call) (decision : Decision) → (wrong_code setting.read).0 < 2 ^ 32 → DecidesCall setting call decision
        → (decision.code.0 < 2 ^ 32) × privileges_in_order.IsSpellable decision.used }
    ensures written { (setting : AuditSetting) (call : Call) (decision : Decision) → AreCallTexts call → IsCallShort call → IsCallTimely call → IsName setting.setting.user → setting.stamp.0 ≤ LAST_MOMENT
        → AreFgaSpelled setting.fga → DecidesCall setting call decision → AllByRecursion IsChangeSpellable decision.changes }
{}
