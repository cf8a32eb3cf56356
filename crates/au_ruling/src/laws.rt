//! Laws of what statements come to. Each does nothing, and states its law for its callers.
ghost use Rattle.std.specs.Prelude.{◌≡◌, ◌≢◌, ◌≤◌, ◌<◌, ◌+◌, ◌^◌, [], false, true, length, IsTrue, List, None, Some, ℕ};
ghost use Rattle.std.specs.List.{AllByRecursion};
ghost use Rattle.au_audit.specs.Statements.{object_of};
ghost use Rattle.au_base.specs.BuiltIn.{sys};
ghost use Rattle.au_base.specs.Codes.{DONE};
ghost use Rattle.au_base.specs.Limits.{CATALOG_OBJECTS, TRANSACTION_CHANGES};
ghost use Rattle.au_base.specs.Naming.{IsName};
ghost use Rattle.au_entries.specs.Changing.{changed_all};
ghost use Rattle.au_entries.specs.Lawful.{IsWhole};
ghost use Rattle.au_entries.specs.Replaying.{AllGoOn, has_user};
ghost use Rattle.au_kept.specs.Keeping.{HoldsTogether};
ghost use Rattle.au_kept.specs.Staging.{IsFree, IsOfRow};
ghost use Rattle.au_replay.specs.Reading.{conditions};
ghost use Rattle.au_ruling.specs.declared.kind.StatementKind.TheVariants as kinds;
ghost use Rattle.au_ruling.specs.declared.ruling.Ruling.{Ruling as AnyRuling};
ghost use Rattle.au_ruling.specs.Kinds.{is_on_rows, kind_of};
ghost use Rattle.au_ruling.specs.Rulings.{Comes, Ground};
ghost use Rattle.au_ruling.specs.Sound.{AreAlike, IsDeskIn, IsNamedFga, IsNamedObject, IsSoundGround, IsSoundStatement, IsTimelyPurge, TellsBusy, is_connected};
ghost use Rattle.au_txn.specs.Desks.{Contents as Desk, open_of};
ghost use Rattle.au_writing.specs.Written.{CanBeWritten};
ghost use Rattle.rec_codec.specs.Changes.{IsChangeSpellable};
ghost use Rattle.rec_parts.specs.Parts.{privileges_in_order};
ghost use Rattle.sql_ast.specs.declared.statement.Statement.{Statement};

use au_admin::administration_holds;
use au_base::same_is_equal;
use au_condition::{conditions_are_read, expression_codes_fit};
use au_define::definitions_hold;
use au_plan::plans_hold;
use au_writing::plans_can_be_written;

/// A statement comes to one thing, wherever the same stands before it. Where it is refused it changes
/// nothing, purges nothing and forgets nothing, and no fine-grained policy demands a record of it.
pub fn rulings_are_one()
    ensures one { (basis : Ground) (statement : Statement) (a b : AnyRuling) → Comes basis statement a → Comes basis statement b → a ≡ b }
    ensures refused { (basis : Ground) (statement : Statement) (ruling : AnyRuling) → Comes basis statement ruling → ruling.code ≢ DONE
        → (ruling.changes ≡ []) × (ruling.rows ≡ []) × (ruling.purge ≡ None) × (ruling.forgets ≡ []) × (ruling.fired ≡ []) }
    ensures same { (a b : Ground) (statement : Statement) (ruling : AnyRuling) → AreAlike a b → Comes a statement ruling → Comes b statement ruling }
{
    plans_hold();
    definitions_hold();
    administration_holds();
}

/// What a statement changes of what is kept goes on from it, and leaves it whole, with SYS and each
/// user who has a session. None of it is of a row. A table that it drops has no change of another
/// client in it, where busy tables are told.
pub fn rulings_go_on()
    ensures goes { (basis : Ground) (statement : Statement) (ruling : AnyRuling) → IsSoundGround basis → IsSoundStatement statement → Comes basis statement ruling
        → AllGoOn conditions false basis.kept ruling.changes }
    ensures whole { (basis : Ground) (statement : Statement) (ruling : AnyRuling) → IsSoundGround basis → IsSoundStatement statement → Comes basis statement ruling
        → IsWhole (changed_all conditions.tree ruling.changes basis.kept) × IsTrue (has_user (changed_all conditions.tree ruling.changes basis.kept) sys) }
    ensures stay { (basis : Ground) (statement : Statement) (ruling : AnyRuling) (who : List ℕ) → IsSoundGround basis → IsSoundStatement statement → Comes basis statement ruling
        → IsTrue (has_user basis.kept who) → IsTrue (is_connected basis who) → IsTrue (has_user (changed_all conditions.tree ruling.changes basis.kept) who) }
    ensures rowless { (basis : Ground) (statement : Statement) (ruling : AnyRuling) → Comes basis statement ruling → AllByRecursion (λ change. ¬ IsOfRow change) ruling.changes }
    ensures free { (basis : Ground) (statement : Statement) (ruling : AnyRuling) (desk : Desk) → TellsBusy basis statement desk → open_of desk basis.client ≡ []
        → Comes basis statement ruling → AllByRecursion (IsFree None desk) ruling.changes }
    ensures alone { (basis : Ground) (statement : Statement) (ruling : AnyRuling) (desk : Desk) → TellsBusy basis statement desk
        → Comes basis statement ruling → AllByRecursion (IsFree (Some basis.client) desk) ruling.changes }
{
    same_is_equal();
    definitions_hold();
    administration_holds();
    conditions_are_read();
}

/// The code, the privileges, the changes, the fired policies, the moment of a purge and the object of a
/// statement can be written into frames and records, and there are few of them.
pub fn rulings_can_be_written()
    ensures told { (basis : Ground) (statement : Statement) (ruling : AnyRuling) → Comes basis statement ruling → (ruling.code.0 < 2 ^ 32) × privileges_in_order.IsSpellable ruling.used }
    ensures written { (basis : Ground) (statement : Statement) (ruling : AnyRuling) → IsSoundGround basis → IsSoundStatement statement → Comes basis statement ruling
        → AllByRecursion IsChangeSpellable ruling.changes }
    ensures fired { (basis : Ground) (statement : Statement) (ruling : AnyRuling) → IsSoundGround basis → Comes basis statement ruling → AllByRecursion IsNamedFga ruling.fired }
    ensures few { (basis : Ground) (statement : Statement) (ruling : AnyRuling) → IsSoundGround basis → IsSoundStatement statement → Comes basis statement ruling
        → (length ruling.changes + TRANSACTION_CHANGES < 2 ^ 32) × (length ruling.fired ≤ CATALOG_OBJECTS) }
    ensures purged { (basis : Ground) (statement : Statement) (ruling : AnyRuling) → IsSoundGround basis → Comes basis statement ruling → IsTimelyPurge ruling.purge }
    ensures object { (user : List ℕ) (statement : Statement) → IsName user → IsSoundStatement statement → IsNamedObject (object_of user statement) }
{
    definitions_hold();
    administration_holds();
    conditions_are_read();
    expression_codes_fit();
    same_is_equal();
}

/// A statement on rows changes nothing of what is kept, purges nothing and undoes nothing, and its
/// client may make its changes of rows. No other statement changes a row; one on tables, users,
/// roles and grants purges nothing.
pub fn rulings_change_rows()
    ensures rows { (basis : Ground) (statement : Statement) (ruling : AnyRuling) (desk : Desk) → HoldsTogether basis.kept desk → IsDeskIn basis desk → IsSoundGround basis
        → IsSoundStatement statement → Comes basis statement ruling → CanBeWritten basis.kept desk basis.client ruling.rows }
    ensures only { (basis : Ground) (statement : Statement) (ruling : AnyRuling) → Comes basis statement ruling → is_on_rows statement ≡ true
        → (ruling.changes ≡ []) × (ruling.purge ≡ None) × (ruling.undoes ≡ false) }
    ensures rowless { (basis : Ground) (statement : Statement) (ruling : AnyRuling) → Comes basis statement ruling → is_on_rows statement ≡ false → ruling.rows ≡ [] }
    ensures undone { (basis : Ground) (statement : Statement) (ruling : AnyRuling) → Comes basis statement ruling → ruling.undoes ≡ true → ruling.rows ≡ [] }
    ensures defined { (basis : Ground) (statement : Statement) (ruling : AnyRuling) → Comes basis statement ruling → kind_of statement ≡ kinds.Definition → ruling.purge ≡ None }
{
    plans_can_be_written();
}
