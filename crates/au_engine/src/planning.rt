//! Plans of statements on rows, and what their sessions are.
ghost use Rattle.std.specs.Prelude.{◌≡◌, Ok, IfOk, Some, option_map, true};
ghost use Rattle.std.specs.Option.{option_copied};
ghost use Rattle.au_base.specs.declared.numbers.ClientNo.{ClientNo as Client};
ghost use Rattle.au_catalog.specs.Settling.{catalog_of};
ghost use Rattle.au_kept.specs.Keeping.{desk_of};
ghost use Rattle.au_ruling.specs.Kinds.{is_on_rows};
ghost use Rattle.au_ruling.specs.Rulings.{IsPlanIn};
ghost use Rattle.au_step.specs.declared.session.Session.{Session as AnySession};
ghost use Rattle.au_step.specs.Planning.{IsPlanFor, IsPlanOfRead, IsPlanOfSql};
ghost use Rattle.au_step.specs.Step.{facts_at, ground_of, session_of};
ghost use Rattle.au_engine.specs.Inside.{IsOwn};
ghost use Rattle.au_engine.specs.Reserved.{contents_of};
ghost use Rattle.au_world.specs.Sound.{IsSoundWorld};

use crate::Engine;
use crate::sessions::session_of;
use au_base::{Ask, ClientNo, Code, Memory, Stamp};
use au_expr::SessionFacts;
use au_plan::{lawful_catalogues_can_be_planned, plan, plans_hold};
use au_ruling::is_on_rows;
use au_step::Session;
use au_world::{RowPlan, World};
use sql_ast::Statement;
use std::alloc::Global;

impl Engine {
    /// What is kept, as the world of statements on rows. It copies nothing and takes no memory.
    pub fn world(&self) -> World<'_>
        ensures catalog { result.catalog.now ≡ catalog_of self.now.state.kept }
        ensures grants { result.grants.now ≡ self.now.state.kept.grants }
        ensures desk { result.desk.now ≡ desk_of (contents_of self.now) }
        ensures records { result.records.now ≡ self.now.state.kept.trail }
        ensures sound { IsSoundWorld result }
    {
        au_view::world(&self.keeping)
    }

    /// What an expression reads of an event of the client at this stamp. `None` exactly where the
    /// client has no session.
    pub fn session(
        &self,
        alloc: Global,
        client: ClientNo,
        stamp: Stamp,
    ) -> Result<Option<SessionFacts>, Memory>
        ensures { IfOk result (λ found. found ≡ option_map (λ seat. facts_at seat.session.user seat.session.number stamp.0) (session_of self.now.state.sessions client)) }
    {
        match self.client_session(client) {
            None => Ok(None),
            Some(session) => Ok(Some(self.facts_at(alloc, session, stamp)?)),
        }
    }

    /// The plan that goes with the ask, whose text is read so: a statement on rows of a client that
    /// has a session has one. It leaves the state as it is. `Memory` is the only error.
    pub fn plan(
        &self,
        alloc: Global,
        client: ClientNo,
        ask: &Ask,
        read: &Result<Statement, Code>,
        stamp: Stamp,
    ) -> Result<Option<RowPlan>, Memory>
        ensures { IfOk result (IsPlanFor self.now.state client ask.now stamp.0 read.now) }
    {
        match ask {
            Ask::Sql(_) => self.plan_of_text(alloc, client, read, stamp),
            Ask::Local | Ask::Logon { .. } | Ask::Logoff => Ok(None),
        }
    }

    // The plan of a text of the client that is read so.
    fn plan_of_text(
        &self,
        alloc: Global,
        client: ClientNo,
        read: &Result<Statement, Code>,
        stamp: Stamp,
    ) -> Result<Option<RowPlan>, Memory>
        ensures { IfOk result (IsPlanOfSql self.now.state client stamp.0 read.now) }
    {
        match self.client_session(client) {
            None => Ok(None),
            Some(session) => self.plan_of_read(alloc, session, read, stamp),
        }
    }

    // The plan of a text of the session that is read so.
    fn plan_of_read(
        &self,
        alloc: Global,
        session: &Session,
        read: &Result<Statement, Code>,
        stamp: Stamp,
    ) -> Result<Option<RowPlan>, Memory>
        ensures { IfOk result (IsPlanOfRead self.now.state session.now stamp.0 read.now) }
    {
        match read {
            Err(_) => Ok(None),
            Ok(statement) => self.plan_of_statement(alloc, session, statement, stamp),
        }
    }

    // The plan of a statement of the session.
    fn plan_of_statement(
        &self,
        alloc: Global,
        session: &Session,
        statement: &Statement,
        stamp: Stamp,
    ) -> Result<Option<RowPlan>, Memory>
        ensures { IfOk result (IsPlanOfRead self.now.state session.now stamp.0 (Ok statement.now)) }
    {
        if !is_on_rows(statement) {
            return Ok(None);
        }
        let plan = self.plan_on_rows(alloc, session, statement, stamp)?;
        Ok(Some(plan))
    }

    // The plan of a statement on rows of the session.
    fn plan_on_rows(
        &self,
        alloc: Global,
        session: &Session,
        statement: &Statement,
        stamp: Stamp,
    ) -> Result<RowPlan, Memory>
        requires on_rows { is_on_rows statement.now ≡ true }
        ensures { IfOk result (IsPlanIn (ground_of self.now.state session.now statement.now stamp.0) statement.now) }
    {
        self.holds_together();
        lawful_catalogues_can_be_planned();
        plans_hold();
        let facts = self.facts_at(alloc, session, stamp)?;
        let plan = plan(alloc, self.world(), session.client, &facts, statement)?;
        Ok(plan)
    }

    /// What an expression reads of an event of the session at this stamp.
    pub(crate) fn facts_at(
        &self,
        alloc: Global,
        session: &Session,
        stamp: Stamp,
    ) -> Result<SessionFacts, Memory>
        ensures { IfOk result (λ facts. facts ≡ facts_at session.now.user session.now.number stamp.0) }
    {
        SessionFacts::new(alloc, session.user.clone()?, session.number, stamp)
    }

    /// The client's session.
    pub(crate) fn client_session(&self, client: ClientNo) -> Option<&Session>
        ensures { option_copied result ≡ option_map (λ seat. seat.session) (session_of self.now.state.sessions client) }
    {
        session_of(self.sessions.as_slice(), client)
    }

    /// The client's session, which is lawful.
    pub(crate) fn own_session(&self, client: ClientNo) -> Option<&Session>
        ensures found { option_copied result ≡ option_map (λ seat. seat.session) (session_of self.now.state.sessions client) }
        ensures own { (session : AnySession) → option_copied result ≡ Some session → IsOwn self.now.state session }
    {
        self.holds_together();
        self.client_session(client)
    }
}
