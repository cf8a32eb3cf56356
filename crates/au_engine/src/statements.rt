//! Steps of statements.
ghost use Rattle.std.specs.Prelude.{◌≡◌, Ok, IfOk, MatchOption, false};
ghost use Rattle.au_audit.specs.Statements.{IsPlaced, statement_facts};
ghost use Rattle.au_engine.specs.Counting.{AreStatementFacts, AreTextFacts, CountsUp};
ghost use Rattle.au_ruling.specs.Kinds.{is_on_rows};
ghost use Rattle.au_ruling.specs.Rulings.{Comes};
ghost use Rattle.au_step.specs.Lawful.{IsLawfulSession};
ghost use Rattle.au_step.specs.Planning.{IsPlanOfRead, IsPlanOfSql};
ghost use Rattle.au_step.specs.Reading.{IsReadAs, ReadsSoundly};
ghost use Rattle.au_step.specs.Replaying.{EndsWell};
ghost use Rattle.au_step.specs.State.{IsStampOf};
ghost use Rattle.au_step.specs.Step.{CodeStep, SessionStep, SqlStep, StatementStep, decided_in, ground_of, session_of, statement_left};
ghost use Rattle.au_engine.specs.Inside.{CanBeMade, IsOwn};
ghost use Rattle.au_engine.specs.Prepared.{logged_by, made_of};
ghost use Rattle.sql_parse.specs.Statements.{Reads};

use crate::Engine;
use crate::concluding::Decided;
use crate::outcome::{Outcome, SessionChange};
use crate::places::{statement_facts, statement_place};
use crate::replies::code_reply;
use au_base::{ClientNo, Code, List, Memory, Stamp, Steps, Text};
use au_recording::Left;
use au_ruling::{Ruling, RulingCase, rule, statements_are_sound};
use au_step::{Session, statements_stand_in_their_texts};
use au_world::RowPlan;
use sql_ast::Statement;
use std::alloc::Global;
use std::sync::ledger::Ledger;

impl Engine {
    /// A text of a client, which is read so, with its plan.
    pub(crate) fn sql<L: Ledger>(
        &self,
        alloc: Global,
        client: ClientNo,
        text: &Text,
        read: &Result<Statement, Code>,
        plan: Option<RowPlan>,
        stamp: Stamp,
        steps: &mut Steps<L>,
    ) -> Result<Outcome, Memory>
        requires read { IsReadAs text.now read.now }
        requires stamp { IsStampOf self.now.state stamp.0 }
        requires seated { EndsWell self.now.state.kept }
        requires planned { IsPlanOfSql self.now.state client stamp.0 read.now plan }
        ensures step { IfOk result (λ outcome. SqlStep self.now.state client text.now stamp.0 outcome.reply (logged_by outcome) (made_of outcome self.now.state)) }
        ensures counted { CountsUp self.now.state (λ facts. MatchOption (session_of self.now.state.sessions client) ⊥ (λ seat. AreTextFacts self.now.state seat.session text.now stamp.0 facts)) steps.old steps.new }
        ensures made { IfOk result (CanBeMade self.now.state) }
    {
        match self.own_session(client) {
            None => Ok(self.unchanged(alloc, Code::NOT_LOGGED_ON)),
            Some(session) => {
                let outcome = self.text(alloc, session, text, read, plan, stamp, steps)?;
                Ok(outcome)
            }
        }
    }

    /// A step that answers with the code, and changes nothing.
    pub(crate) fn unchanged(&self, alloc: Global, code: Code) -> Outcome
        ensures step { CodeStep self.now.state code result.reply (logged_by result) (made_of result self.now.state) }
        ensures made { CanBeMade self.now.state result }
    {
        Outcome::of_records(
            alloc,
            code_reply(alloc, code),
            SessionChange::Nothing,
            None,
            List::new(alloc),
            self.keeping.last(),
        )
    }

    // A text of a client that has this session.
    fn text<L: Ledger>(
        &self,
        alloc: Global,
        session: &Session,
        text: &Text,
        read: &Result<Statement, Code>,
        plan: Option<RowPlan>,
        stamp: Stamp,
        steps: &mut Steps<L>,
    ) -> Result<Outcome, Memory>
        requires own { IsOwn self.now.state session.now }
        requires read { IsReadAs text.now read.now }
        requires stamp { IsStampOf self.now.state stamp.0 }
        requires seated { EndsWell self.now.state.kept }
        requires planned { IsPlanOfRead self.now.state session.now stamp.0 read.now plan }
        ensures step { IfOk result (λ outcome. SessionStep self.now.state session.now text.now stamp.0 outcome.reply (logged_by outcome) (made_of outcome self.now.state)) }
        ensures counted { CountsUp self.now.state (AreTextFacts self.now.state session.now text.now stamp.0) steps.old steps.new }
        ensures made { IfOk result (CanBeMade self.now.state) }
    {
        match read {
            Err(code) => Ok(self.unchanged(alloc, *code)),
            Ok(statement) => {
                let outcome = self.read(alloc, session, text, statement, plan, stamp, steps)?;
                Ok(outcome)
            }
        }
    }

    // A text that is read as this statement.
    fn read<L: Ledger>(
        &self,
        alloc: Global,
        session: &Session,
        text: &Text,
        statement: &Statement,
        plan: Option<RowPlan>,
        stamp: Stamp,
        steps: &mut Steps<L>,
    ) -> Result<Outcome, Memory>
        requires own { IsOwn self.now.state session.now }
        requires read { Reads text.now statement.now }
        requires stamp { IsStampOf self.now.state stamp.0 }
        requires seated { EndsWell self.now.state.kept }
        requires planned { IsPlanOfRead self.now.state session.now stamp.0 (Ok statement.now) plan }
        ensures step { IfOk result (λ outcome. SessionStep self.now.state session.now text.now stamp.0 outcome.reply (logged_by outcome) (made_of outcome self.now.state)) }
        ensures counted { CountsUp self.now.state (AreTextFacts self.now.state session.now text.now stamp.0) steps.old steps.new }
        ensures made { IfOk result (CanBeMade self.now.state) }
    {
        reads_soundly(text, statement);
        let outcome = self.statement(alloc, session, text, statement, plan, stamp, steps)?;
        Ok(outcome)
    }

    // A text that is this statement.
    fn statement<L: Ledger>(
        &self,
        alloc: Global,
        session: &Session,
        text: &Text,
        statement: &Statement,
        plan: Option<RowPlan>,
        stamp: Stamp,
        steps: &mut Steps<L>,
    ) -> Result<Outcome, Memory>
        requires own { IsOwn self.now.state session.now }
        requires read { ReadsSoundly text.now statement.now }
        requires stamp { IsStampOf self.now.state stamp.0 }
        requires seated { EndsWell self.now.state.kept }
        requires planned { IsPlanOfRead self.now.state session.now stamp.0 (Ok statement.now) plan }
        ensures step { IfOk result (λ outcome. StatementStep self.now.state session.now statement.now text.now stamp.0 outcome.reply (logged_by outcome) (made_of outcome self.now.state)) }
        ensures counted { CountsUp self.now.state (AreStatementFacts self.now.state session.now statement.now stamp.0) steps.old steps.new }
        ensures made { IfOk result (CanBeMade self.now.state) }
    {
        let finals = self.finals(alloc, session, statement)?;
        let ruling = self.ruling(alloc, session, statement, plan, stamp)?;
        let left = self.statement_left(alloc, session, text, statement, &ruling, stamp, steps)?;
        let decided = Decided {
            finals,
            ruling,
            left,
        };
        let outcome = self.concluded(alloc, session, statement, decided, stamp)?;
        Ok(outcome)
    }

    // What the statement comes to: that of its plan, where it has one.
    fn ruling(
        &self,
        alloc: Global,
        session: &Session,
        statement: &Statement,
        plan: Option<RowPlan>,
        stamp: Stamp,
    ) -> Result<Ruling, Memory>
        requires planned { IsPlanOfRead self.now.state session.now stamp.0 (Ok statement.now) plan }
        ensures { IfOk result (Comes (ground_of (decided_in self.now.state session.now.client statement.now) session.now statement.now stamp.0) statement.now) }
    {
        match plan {
            Some(plan) => Ok(Ruling::of_plan(alloc, plan)),
            None => {
                let ruling = self.ruled(alloc, session, statement, stamp)?;
                Ok(ruling)
            }
        }
    }

    // What a statement comes to that is on no rows.
    fn ruled(
        &self,
        alloc: Global,
        session: &Session,
        statement: &Statement,
        stamp: Stamp,
    ) -> Result<Ruling, Memory>
        requires other { is_on_rows statement.now ≡ false }
        ensures { IfOk result (Comes (ground_of (decided_in self.now.state session.now.client statement.now) session.now statement.now stamp.0) statement.now) }
    {
        self.holds_together();
        let busy = self.busy(alloc, session, statement)?;
        let facts = self.facts_at(alloc, session, stamp)?;
        let case = RulingCase {
            catalog: self.keeping.catalog(),
            grants: self.keeping.grants(),
            busy: &busy,
            client: session.client,
            session: &facts,
        };
        let ruling = rule(alloc, case, statement)?;
        Ok(ruling)
    }

    // What auditing leaves of a statement that came to this, in the state in which it is decided.
    fn statement_left<L: Ledger>(
        &self,
        alloc: Global,
        session: &Session,
        text: &Text,
        statement: &Statement,
        ruling: &Ruling,
        stamp: Stamp,
        steps: &mut Steps<L>,
    ) -> Result<Left, Memory>
        requires own { IsLawfulSession self.now.state.kept session.now }
        requires placed { IsPlaced text.now statement.now }
        ensures counted { CountsUp self.now.state (λ facts. facts ≡ statement_facts session.now.user statement.now ruling.now.used ruling.now.code) steps.old steps.new }
        ensures left { IfOk result (λ left. left ≡ statement_left (decided_in self.now.state session.now.client statement.now) session.now stamp.0 statement.now text.now ruling.now) }
    {
        let facts = statement_facts(alloc, &session.user, statement, ruling)?;
        let place = statement_place(alloc, session, text, statement, stamp)?;
        let left = self.event_left(
            alloc,
            &session.results,
            &facts,
            &place,
            ruling.fired.as_slice(),
            ruling.forgets.as_slice(),
            steps,
        )?;
        Ok(left)
    }
}

/// A text that is a statement is read as one whose names are names and whose password stands in the
/// text. It does nothing, and states the law for its callers.
pub fn reads_soundly(text: &Text, statement: &Statement)
    ensures { Reads text.now statement.now → ReadsSoundly text.now statement.now }
{
    let _bytes = text.as_bytes();
    statements_stand_in_their_texts();
    statements_are_sound(statement);
}
