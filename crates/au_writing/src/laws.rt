//! The law of what statements on rows come to.
ghost use Rattle.au_base.specs.declared.numbers.ClientNo.{ClientNo};
ghost use Rattle.au_base.specs.Naming.{IsName};
ghost use Rattle.au_entries.specs.declared.kept.Kept.{Kept};
ghost use Rattle.au_expr.specs.Sessions.{IsSoundSession, Session};
ghost use Rattle.au_kept.specs.Keeping.{HoldsTogether};
ghost use Rattle.au_literals.specs.Literals.{AreLiteralsSound};
ghost use Rattle.au_plan.specs.Plans.{IsPlanOf};
ghost use Rattle.au_txn.specs.Desks.{Contents as Desk};
ghost use Rattle.au_world.specs.declared.row_plan.RowPlan.{RowPlan};
ghost use Rattle.au_world.specs.Plans.{Truths};
ghost use Rattle.au_world.specs.Sights.{Sight};
ghost use Rattle.au_writing.specs.Written.{CanBeWritten, Shows};
ghost use Rattle.sql_ast.specs.declared.statement.Statement.{Statement};

/// What a client's statement on rows comes to can be written, where the client sees what is kept and
/// the desk: its changes are of rows that it sees and may change, the contents that they make fit
/// their table and have a spelling, keys differ after them, and the limits are kept. It does nothing,
/// and states the law for its callers.
pub fn plans_can_be_written()
    ensures { (kept : Kept) (desk : Desk) (sight : Sight) (client : ClientNo) (truth : Truths) (session : Session) (statement : Statement) (plan : RowPlan) → HoldsTogether kept desk → Shows kept desk client sight
        → IsSoundSession session → IsName session.user → AreLiteralsSound statement → IsPlanOf truth sight client session statement plan → CanBeWritten kept desk client plan.changes }
{
    au_expr::values_are_sound();
    au_kept::numbers_stay_few();
    au_txn::keys_differ_by_points();
    au_txn::laid_rows_answer();
    au_txn::rows_are_triples();
    au_txn::rows_are_what_they_answer();
    au_txn::rows_stand_by_tables();
}
