//! Laws of queries, for the crates above.
ghost use Rattle.std.specs.Prelude.{◌≡◌, List};
ghost use Rattle.au_base.specs.declared.reply.Reply.{Reply};
ghost use Rattle.au_expr.specs.Rows.{Range};
ghost use Rattle.au_expr.specs.Sessions.{Session};
ghost use Rattle.au_query.specs.Answers.{IsReply};
ghost use Rattle.au_query.specs.Combos.{Line};
ghost use Rattle.sql_ast.specs.declared.query.Select.{Select};

/// A query that is done has one reply, also where rows tie in its order. It does nothing, and states
/// the law for its callers.
pub fn replies_are_one()
    ensures { (session : Session) (ranges : List Range) (passing : List (List Line)) (select : Select) (one other : Reply)
        → IsReply session ranges passing select one → IsReply session ranges passing select other → one ≡ other }
{}
