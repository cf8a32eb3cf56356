//! Laws of the desk of a state.
ghost use Rattle.std.specs.Prelude.{◌≡◌, ◌≢◌, ℕ, Some, true};
ghost use Rattle.au_base.specs.declared.numbers.ClientNo.{ClientNo};
ghost use Rattle.au_kept.specs.Keeping.{desk_of};
ghost use Rattle.au_ruling.specs.declared.ruling.Ruling.{Ruling};
ghost use Rattle.au_ruling.specs.Kinds.{is_on_rows};
ghost use Rattle.au_ruling.specs.Rulings.{Comes};
ghost use Rattle.au_ruling.specs.Sound.{IsSoundStatement};
ghost use Rattle.au_txn.specs.Desks.{open_of};
ghost use Rattle.au_writing.specs.Written.{CanBeWritten};
ghost use Rattle.sql_ast.specs.declared.statement.Statement.{Statement};
ghost use Rattle.au_step.specs.Lawful.{IsLawfulState, desk_in};
ghost use Rattle.au_step.specs.Replaying.{EndsWell};
ghost use Rattle.au_step.specs.Sound.{HoldsOfKeepings};
ghost use Rattle.au_step.specs.State.{IsStampOf, OpenSession, State};
ghost use Rattle.au_step.specs.Step.{ground_of, session_of, transaction_of};

use au_kept::transactions_hold;
use au_ruling::rulings_change_rows;

/// Each client's changes on the desk of a state are its transaction. It does nothing, and states the
/// law for its callers.
pub fn desks_tell_transactions()
    ensures { (m : State) (client : ClientNo) → open_of (desk_in m) client ≡ transaction_of m.sessions client }
{}

/// What a statement on rows comes to can be written to the transaction of its session. It does
/// nothing, and states the law for its callers.
pub fn rows_can_be_written()
    ensures { (m : State) (client : ClientNo) (seat : OpenSession) (statement : Statement) (stamp : ℕ) (ruling : Ruling) → IsLawfulState m → EndsWell m.kept → IsStampOf m stamp
        → session_of m.sessions client ≡ Some seat → IsSoundStatement statement → is_on_rows statement ≡ true → Comes (ground_of m seat.session statement stamp) statement ruling
        → HoldsOfKeepings m (λ contents. CanBeWritten contents.kept (desk_of contents) seat.session.client ruling.rows) }
{
    rulings_change_rows();
    transactions_hold();
}
