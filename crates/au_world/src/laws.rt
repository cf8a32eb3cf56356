//! Laws of queries and plans, for the crates above.
ghost use Rattle.std.specs.Prelude.{◌≡◌, ◌≢◌, []};
ghost use Rattle.au_base.specs.declared.numbers.ClientNo.{ClientNo as Client};
ghost use Rattle.au_base.specs.Codes.{DONE};
ghost use Rattle.au_expr.specs.Sessions.{Session};
ghost use Rattle.au_query.specs.declared.selected.Selected.{Selected};
ghost use Rattle.au_query.specs.Answers.{refused};
ghost use Rattle.au_world.specs.Plans.{IsPlanOf, ShowTheSame, Truths};
ghost use Rattle.au_world.specs.Selecting.{IsAnswer};
ghost use Rattle.au_world.specs.Sights.{Sight};
ghost use Rattle.au_world.specs.Sound.{IsSoundFor, IsSoundWorld};
ghost use Rattle.au_world.specs.declared.row_plan.RowPlan.{RowPlan as Plan};
ghost use Rattle.au_world.specs.declared.world.World.{World as State};
ghost use Rattle.sql_ast.specs.declared.statement.Statement.{Statement};

use au_base::same_is_equal;
use au_priv::rights_have_one_answer;
use au_query::replies_are_one;
use au_txn::laid_rows_answer;

/// A query has one answer over what is seen: one code, one reply, also where rows tie in its order,
/// the same touched rows and the same named columns; and the same over sights that show the same. It
/// does nothing, and states the laws for its callers.
pub fn queries_have_one_answer()
    ensures one { (sight : Sight) (session : Session) (statement : Statement) (one other : Selected)
        → IsAnswer sight session statement one → IsAnswer sight session statement other → one ≡ other }
    ensures same { (a b : Sight) (session : Session) (statement : Statement) (selected : Selected)
        → ShowTheSame a b → IsAnswer a session statement selected → IsAnswer b session statement selected }
{
    replies_are_one();
}

/// A statement on rows has one plan, and the same over sights that show the same. The plan of a
/// query changes nothing. Where its code isn't 0, its reply has the code alone, and no fine-grained
/// policy demands a record. It does nothing, and states the laws for its callers.
pub fn plans_hold()
    ensures one { (truth : Truths) (sight : Sight) (session : Session) (statement : Statement) (one other : Plan)
        → IsPlanOf truth sight session statement one → IsPlanOf truth sight session statement other → one ≡ other }
    ensures refused { (truth : Truths) (sight : Sight) (session : Session) (statement : Statement) (plan : Plan)
        → IsPlanOf truth sight session statement plan → plan.code ≢ DONE
        → (plan.reply ≡ (refused plan.code).reply) × (plan.changes ≡ []) × (plan.fired ≡ []) }
    ensures same { (truth : Truths) (a b : Sight) (session : Session) (statement : Statement) (plan : Plan)
        → ShowTheSame a b → IsPlanOf truth a session statement plan → IsPlanOf truth b session statement plan }
{
    replies_are_one();
    rights_have_one_answer();
}

/// What is sound of a world is sound for each of its clients. It does nothing, and states the law for
/// its callers.
pub fn sound_worlds_are_sound_for_clients()
    ensures { (world : State) (client : Client) → IsSoundWorld world → IsSoundFor world client }
{
    same_is_equal();
    laid_rows_answer();
}
