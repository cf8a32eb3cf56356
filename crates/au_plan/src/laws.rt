//! Laws of plans, for the crates above.
ghost use Rattle.std.specs.Prelude.{◌≡◌, ◌≢◌, ◌∷◌, [], Some, IsTrue};
ghost use Rattle.au_base.specs.declared.numbers.ClientNo.{ClientNo as Client};
ghost use Rattle.au_base.specs.Codes.{DONE};
ghost use Rattle.au_catalog.specs.Settling.{catalog_of};
ghost use Rattle.au_entries.specs.declared.kept.Kept.{Kept};
ghost use Rattle.au_entries.specs.declared.table.Table.{Table};
ghost use Rattle.au_entries.specs.Lawful.{IsLawful};
ghost use Rattle.au_entries.specs.Replaying.{Conditions};
ghost use Rattle.au_expr.specs.Resolving.{IsCondition};
ghost use Rattle.au_expr.specs.Sessions.{Session};
ghost use Rattle.au_fga.specs.Testing.{range_of};
ghost use Rattle.au_plan.specs.Planning.{CanBePlanned};
ghost use Rattle.au_plan.specs.Plans.{IsPlanOf};
ghost use Rattle.au_query.specs.Answers.{refused};
ghost use Rattle.au_world.specs.declared.row_plan.RowPlan.{RowPlan as Plan};
ghost use Rattle.au_world.specs.declared.world.World.{World as State};
ghost use Rattle.au_world.specs.Plans.{ShowTheSame, Truths};
ghost use Rattle.au_world.specs.Sights.{Sight};
ghost use Rattle.sql_ast.specs.declared.expression.Expr.{Expr};
ghost use Rattle.sql_ast.specs.declared.statement.Statement.{Statement};

use au_base::same_is_equal;
use au_change::changes_are_one;
use au_fga::{lawful_policies_can_be_tested, refused_statements_fire_nothing};
use au_insert::insertions_are_one;
use au_priv::rights_have_one_answer;
use au_world::plans_hold as queries_hold;

/// A statement on rows has one plan, and the same over sights that show the same. Where its code
/// isn't 0, its reply has the code alone, nothing is changed, and no fine-grained policy demands a
/// record. It does nothing, and states the laws for its callers.
pub fn plans_hold()
    ensures one { (truth : Truths) (sight : Sight) (client : Client) (session : Session) (statement : Statement) (one other : Plan)
        → IsPlanOf truth sight client session statement one → IsPlanOf truth sight client session statement other → one ≡ other }
    ensures refused { (truth : Truths) (sight : Sight) (client : Client) (session : Session) (statement : Statement) (plan : Plan)
        → IsPlanOf truth sight client session statement plan → plan.code ≢ DONE
        → (plan.reply ≡ (refused plan.code).reply) × (plan.changes ≡ []) × (plan.fired ≡ []) }
    ensures same { (truth : Truths) (a b : Sight) (client : Client) (session : Session) (statement : Statement) (plan : Plan)
        → ShowTheSame a b → IsPlanOf truth a client session statement plan → IsPlanOf truth b client session statement plan }
{
    queries_hold();
    insertions_are_one();
    changes_are_one();
    rights_have_one_answer();
    refused_statements_fire_nothing();
}

/// Statements on rows over a world with the catalogue of what is lawful can be planned, where each
/// tree that is a truth over a table resolves as one. It does nothing, and states the law for its
/// callers.
pub fn lawful_catalogues_can_be_planned()
    ensures { (conditions : Conditions) (kept : Kept) (world : State)
        → ((table : Table) (tree : Expr) → IsTrue (conditions.is_truth (Some table) tree) → IsCondition (range_of table ∷ []) tree)
        → IsLawful conditions kept → world.catalog.now ≡ catalog_of kept → CanBePlanned world }
{
    same_is_equal();
    lawful_policies_can_be_tested();
}
