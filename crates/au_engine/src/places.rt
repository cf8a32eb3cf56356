//! What is known of events when policies are asked, and where their records stand.
ghost use Rattle.std.specs.Prelude.{◌≡◌, IfOk};
ghost use Rattle.au_audit.specs.Statements as audited;
ghost use Rattle.au_audit.specs.Statements.{IsPlaced};
ghost use Rattle.au_step.specs.Step.{logoff_place, logon_place, statement_place};

use crate::sessions::counted;
use au_audit::{Place, action_of, object_of, recorded_text, tables_of};
use au_base::{Action, Code, List, Memory, Name, Privilege, SessionNo, Stamp, Text};
use au_entries::Facts;
use au_logon::Admission;
use au_ruling::Ruling;
use au_step::Session;
use sql_ast::Statement;
use std::alloc::Global;

/// What policies are asked about a statement of the user that came to this.
pub(crate) fn statement_facts(
    alloc: Global,
    user: &Name,
    statement: &Statement,
    ruling: &Ruling,
) -> Result<Facts, Memory>
    ensures { IfOk result (λ facts. facts ≡ audited.statement_facts user.now statement.now ruling.now.used ruling.now.code) }
{
    Ok(Facts {
        user: user.clone()?,
        action: action_of(statement),
        tables: tables_of(alloc, user, statement)?,
        used: copied(&ruling.used)?,
        code: ruling.code,
    })
}

/// Where the records of a statement of the session stand.
pub(crate) fn statement_place(
    alloc: Global,
    session: &Session,
    text: &Text,
    statement: &Statement,
    stamp: Stamp,
) -> Result<Place, Memory>
    requires { IsPlaced text.now statement.now }
    ensures { IfOk result (λ place. place ≡ statement_place session.now stamp.0 statement.now text.now) }
{
    Ok(Place {
        session: session.number,
        entry: counted(session.entries),
        statement: counted(session.statements),
        stamp,
        object: object_of(alloc, &session.user, statement)?,
        sql: Some(recorded_text(alloc, text, statement)?),
    })
}

/// What policies are asked about a logon.
pub(crate) fn logon_facts(alloc: Global, admission: &Admission) -> Result<Facts, Memory>
    ensures { IfOk result (λ facts. facts ≡ audited.logon_facts admission.now.user admission.now.used admission.now.code) }
{
    Ok(Facts {
        user: admission.user.clone()?,
        action: Action::Logon,
        tables: List::new(alloc),
        used: copied(&admission.used)?,
        code: admission.code,
    })
}

/// Where the records of a logon stand.
pub(crate) fn logon_place(session: SessionNo, stamp: Stamp) -> Place
    ensures { result ≡ logon_place session stamp.0 }
{
    Place {
        session,
        entry: 1,
        statement: 0,
        stamp,
        object: None,
        sql: None,
    }
}

/// What policies are asked about a logoff of the user.
pub(crate) fn logoff_facts(alloc: Global, user: &Name) -> Result<Facts, Memory>
    ensures { IfOk result (λ facts. facts ≡ audited.logoff_facts user.now Code.DONE) }
{
    Ok(Facts {
        user: user.clone()?,
        action: Action::Logoff,
        tables: List::new(alloc),
        used: List::new(alloc),
        code: Code::DONE,
    })
}

/// Where the records of a logoff of the session stand.
pub(crate) fn logoff_place(session: &Session, stamp: Stamp) -> Place
    ensures { result ≡ logoff_place session.now stamp.0 }
{
    Place {
        session: session.number,
        entry: counted(session.entries),
        statement: counted(session.statements),
        stamp,
        object: None,
        sql: None,
    }
}

// The same privileges.
fn copied(used: &List<Privilege>) -> Result<List<Privilege>, Memory>
    ensures { IfOk result (λ copy. copy ≡ used.now) }
{
    Ok(used.clone()?)
}
