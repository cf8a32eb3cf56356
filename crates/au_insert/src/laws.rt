//! Laws of what INSERT comes to, for the crates above.
ghost use Rattle.std.specs.Prelude.{◌≡◌, ◌≢◌};
ghost use Rattle.au_base.specs.declared.numbers.ClientNo.{ClientNo};
ghost use Rattle.au_base.specs.declared.table.TableName.{TableName};
ghost use Rattle.au_base.specs.Codes.{DONE};
ghost use Rattle.au_expr.specs.Sessions.{Session};
ghost use Rattle.au_insert.specs.Inserting.{IsInsertion};
ghost use Rattle.au_modify.specs.declared.modification.Modification.{Modification as Modified};
ghost use Rattle.au_modify.specs.Modifying.{refused};
ghost use Rattle.au_world.specs.Plans.{ShowTheSame};
ghost use Rattle.au_world.specs.Sights.{Sight};
ghost use Rattle.sql_ast.specs.declared.rows.Insert.{Insert};

/// An INSERT comes to one thing, and to the same over sights that show the same. Where its code isn't
/// 0, it comes to nothing else. It does nothing, and states the laws for its callers.
pub fn insertions_are_one()
    ensures one { (sight : Sight) (client : ClientNo) (session : Session) (table : TableName) (insert : Insert) (one other : Modified)
        → IsInsertion sight client session table insert one → IsInsertion sight client session table insert other → one ≡ other }
    ensures refused { (sight : Sight) (client : ClientNo) (session : Session) (table : TableName) (insert : Insert) (modification : Modified)
        → IsInsertion sight client session table insert modification → modification.code ≢ DONE → modification ≡ refused modification.code }
    ensures same { (a b : Sight) (client : ClientNo) (session : Session) (table : TableName) (insert : Insert) (modification : Modified)
        → ShowTheSame a b → IsInsertion a client session table insert modification → IsInsertion b client session table insert modification }
{}
