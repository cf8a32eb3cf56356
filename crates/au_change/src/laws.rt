//! Laws of UPDATE and DELETE.
ghost use Rattle.std.specs.Prelude.{◌≡◌, ◌≢◌};
ghost use Rattle.au_base.specs.declared.numbers.ClientNo.{ClientNo as Client};
ghost use Rattle.au_base.specs.declared.table.TableName.{TableName as Table};
ghost use Rattle.au_base.specs.Codes.{DONE};
ghost use Rattle.au_change.specs.Deleting.{IsDeletion};
ghost use Rattle.au_change.specs.Updating.{IsUpdate};
ghost use Rattle.au_expr.specs.Sessions.{Session};
ghost use Rattle.au_modify.specs.declared.modification.Modification.{Modification as Made};
ghost use Rattle.au_modify.specs.Modifying.{refused};
ghost use Rattle.au_world.specs.Plans.{ShowTheSame};
ghost use Rattle.au_world.specs.Sights.{Sight};
ghost use Rattle.sql_ast.specs.declared.rows.Delete.{Delete as Deleting};
ghost use Rattle.sql_ast.specs.declared.rows.Update.{Update as Updating};

/// An UPDATE comes to one modification, and so does a DELETE, and to the same over sights that show
/// the same. Where its code isn't 0, it has the code alone. It does nothing, and states the laws for
/// its callers.
pub fn changes_are_one()
    ensures one_update { (sight : Sight) (client : Client) (session : Session) (table : Table) (update : Updating) (a b : Made)
        → IsUpdate sight client session table update a → IsUpdate sight client session table update b → a ≡ b }
    ensures refused_update { (sight : Sight) (client : Client) (session : Session) (table : Table) (update : Updating) (made : Made)
        → IsUpdate sight client session table update made → made.code ≢ DONE → made ≡ refused made.code }
    ensures same_update { (a b : Sight) (client : Client) (session : Session) (table : Table) (update : Updating) (made : Made)
        → ShowTheSame a b → IsUpdate a client session table update made → IsUpdate b client session table update made }
    ensures one_deletion { (sight : Sight) (client : Client) (session : Session) (table : Table) (delete : Deleting) (a b : Made)
        → IsDeletion sight client session table delete a → IsDeletion sight client session table delete b → a ≡ b }
    ensures refused_deletion { (sight : Sight) (client : Client) (session : Session) (table : Table) (delete : Deleting) (made : Made)
        → IsDeletion sight client session table delete made → made.code ≢ DONE → made ≡ refused made.code }
    ensures same_deletion { (a b : Sight) (client : Client) (session : Session) (table : Table) (delete : Deleting) (made : Made)
        → ShowTheSame a b → IsDeletion a client session table delete made → IsDeletion b client session table delete made }
{}
