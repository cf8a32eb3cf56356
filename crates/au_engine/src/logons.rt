//! Steps of logons and logoffs.
ghost use Rattle.std.specs.Prelude.{◌≡◌, ◌≤◌, ◌<◌, ◌==◌, ◌∷◌, ◌++◌, [], IfOk, MatchOption, length, false, if◌then◌else◌};
ghost use Rattle.au_base.specs.Codes.{DONE};
ghost use Rattle.au_base.specs.Limits.{INSTANCE_SESSIONS};
ghost use Rattle.au_logon.specs.Admitting.{Admits, IsLocal};
ghost use Rattle.au_step.specs.Lawful.{IsLawfulSession};
ghost use Rattle.au_step.specs.Step.{AdmittedStep, EndStep, LogoffStep, LogonStep, after_logoff, after_logon, is_crowded, logoff_left, logon_left, logon_number, next_number, recorded, session_of};
ghost use Rattle.au_audit.specs.Statements.{logoff_facts, logon_facts};
ghost use Rattle.au_engine.specs.Counting.{AreLogonFacts, CountsUp, IsCounted};
ghost use Rattle.au_engine.specs.Inside.{CanBeMade, IsOwn};
ghost use Rattle.au_engine.specs.Logons.{after_admission, after_refusal};
ghost use Rattle.au_engine.specs.Prepared.{logged_by, made_of};
ghost use Rattle.au_ruling.specs.Rulings.{code_reply};

use crate::Engine;
use crate::outcome::{Outcome, SessionChange};
use crate::places::{logoff_facts, logoff_place, logon_facts, logon_place};
use au_base::limits::{INSTANCE_SESSIONS, OPEN_SESSIONS};
use au_base::{ClientNo, Code, List, Memory, SessionNo, Stamp, Steps, Text};
use au_entries::KeptResults;
use au_logon::{Admission, admissions_hold, admit, admit_local};
use au_recording::Left;
use au_step::Session;
use std::alloc::Global;
use std::sync::ledger::Ledger;

impl Engine {
    /// A logon of SYS without a password.
    pub(crate) fn local<L: Ledger>(
        &self,
        alloc: Global,
        client: ClientNo,
        stamp: Stamp,
        steps: &mut Steps<L>,
    ) -> Result<Outcome, Memory>
        ensures step { IfOk result (λ outcome. LogonStep (IsLocal (is_crowded self.now.state)) self.now.state client stamp.0 outcome.reply (logged_by outcome) (made_of outcome self.now.state)) }
        ensures counted { CountsUp self.now.state (AreLogonFacts (IsLocal (is_crowded self.now.state)) self.now.state client) steps.old steps.new }
        ensures made { IfOk result (CanBeMade self.now.state) }
    {
        if self.stands(client) {
            return Ok(self.unchanged(alloc, Code::SESSION_PRESENT));
        }
        admissions_hold();
        let admission = admit_local(alloc, self.is_crowded())?;
        let outcome = self.opens(alloc, client, admission, stamp, steps)?;
        Ok(outcome)
    }

    /// A logon with these texts of a user and of a password.
    pub(crate) fn logon<L: Ledger>(
        &self,
        alloc: Global,
        client: ClientNo,
        user: &Text,
        password: &Text,
        stamp: Stamp,
        steps: &mut Steps<L>,
    ) -> Result<Outcome, Memory>
        ensures step { IfOk result (λ outcome. LogonStep (Admits self.now.state.kept.users self.now.state.kept.grants (is_crowded self.now.state) user.now password.now) self.now.state client stamp.0 outcome.reply (logged_by outcome) (made_of outcome self.now.state)) }
        ensures counted { CountsUp self.now.state (AreLogonFacts (Admits self.now.state.kept.users self.now.state.kept.grants (is_crowded self.now.state) user.now password.now) self.now.state client) steps.old steps.new }
        ensures made { IfOk result (CanBeMade self.now.state) }
    {
        if self.stands(client) {
            return Ok(self.unchanged(alloc, Code::SESSION_PRESENT));
        }
        admissions_hold();
        let admission = self.admitted(alloc, user, password)?;
        let outcome = self.opens(alloc, client, admission, stamp, steps)?;
        Ok(outcome)
    }

    // What is decided of a logon with these texts.
    fn admitted(&self, alloc: Global, user: &Text, password: &Text) -> Result<Admission, Memory>
        ensures { IfOk result (Admits self.now.state.kept.users self.now.state.kept.grants (is_crowded self.now.state) user.now password.now) }
    {
        self.holds_together();
        admit(
            alloc,
            self.keeping.catalog().users.as_slice(),
            self.keeping.grants(),
            self.is_crowded(),
            user,
            password,
        )
    }

    // Whether no more sessions can be open.
    fn is_crowded(&self) -> bool
        ensures { result ≡ is_crowded self.now.state }
    {
        self.sessions.len() >= OPEN_SESSIONS || self.drawn >= INSTANCE_SESSIONS
    }

    // A logon of a client without a session that is admitted or refused so.
    fn opens<L: Ledger>(
        &self,
        alloc: Global,
        client: ClientNo,
        admission: Admission,
        stamp: Stamp,
        steps: &mut Steps<L>,
    ) -> Result<Outcome, Memory>
        requires open_to { admission.code ≡ DONE → is_crowded self.now.state ≡ false }
        ensures step { IfOk result (λ outcome. AdmittedStep self.now.state client stamp.0 admission outcome.reply (logged_by outcome) (made_of outcome self.now.state)) }
        ensures counted { CountsUp self.now.state (λ facts. facts ≡ logon_facts admission.user admission.used admission.code) steps.old steps.new }
        ensures made { IfOk result (CanBeMade self.now.state) }
    {
        let left = self.logon_left(alloc, &admission, stamp, steps)?;
        Ok(self.opened(alloc, client, admission, left, stamp))
    }

    // What auditing leaves of a logon: one record at most.
    fn logon_left<L: Ledger>(
        &self,
        alloc: Global,
        admission: &Admission,
        stamp: Stamp,
        steps: &mut Steps<L>,
    ) -> Result<Left, Memory>
        requires open_to { admission.now.code ≡ DONE → is_crowded self.now.state ≡ false }
        ensures left { IfOk result (λ left. left ≡ logon_left self.now.state stamp.0 admission.now) }
        ensures few { IfOk result (λ left. length left.records ≤ 1) }
        ensures counted { CountsUp self.now.state (λ facts. facts ≡ logon_facts admission.now.user admission.now.used admission.now.code) steps.old steps.new }
    {
        au_recording::records_can_be_written();
        let facts = logon_facts(alloc, admission)?;
        let place = logon_place(self.logon_number(admission), stamp);
        let results = List::new(alloc);
        let left = self.event_left(alloc, &results, &facts, &place, &[], &[], steps)?;
        Ok(left)
    }

    // The number of the logon's session, 0 where it isn't admitted.
    fn logon_number(&self, admission: &Admission) -> SessionNo
        requires open_to { admission.now.code ≡ DONE → is_crowded self.now.state ≡ false }
        ensures { result ≡ logon_number self.now.state admission.now }
    {
        if admission.code.0 == 0 {
            self.next_number()
        } else {
            SessionNo(0)
        }
    }

    // The number of the instance's next session.
    fn next_number(&self) -> SessionNo
        requires open_to { is_crowded self.now.state ≡ false }
        ensures { result ≡ next_number self.now.state }
    {
        SessionNo(u64::from(self.instance()) * 1_000_000_000 + (u64::from(self.drawn) + 1))
    }

    // A logon that is admitted or refused so, of which auditing leaves this.
    fn opened(
        &self,
        alloc: Global,
        client: ClientNo,
        admission: Admission,
        left: Left,
        stamp: Stamp,
    ) -> Outcome
        requires open_to { admission.code ≡ DONE → is_crowded self.now.state ≡ false }
        requires few { length left.records ≤ 1 }
        ensures reply { result.reply ≡ code_reply admission.code }
        ensures logged { logged_by result ≡ recorded left }
        ensures next { made_of result self.now.state ≡ after_logon self.now.state client stamp.0 admission left }
        ensures made { CanBeMade self.now.state result }
    {
        if admission.code.0 == 0 {
            self.begun(alloc, client, admission, left, stamp)
        } else {
            self.refused(alloc, admission, left, stamp)
        }
    }

    // A logon that begins the instance's next session.
    fn begun(
        &self,
        alloc: Global,
        client: ClientNo,
        admission: Admission,
        left: Left,
        stamp: Stamp,
    ) -> Outcome
        requires open_to { is_crowded self.now.state ≡ false }
        requires few { length left.records ≤ 1 }
        ensures reply { result.reply ≡ code_reply admission.code }
        ensures logged { logged_by result ≡ recorded left }
        ensures next { made_of result self.now.state ≡ after_admission self.now.state client stamp.0 admission left }
        ensures made { CanBeMade self.now.state result }
    {
        let Admission {
            code,
            used: _,
            user,
        } = admission;
        let Left { records, results } = left;
        let KeptResults {
            session: results,
            instance,
        } = results;
        let begins = SessionChange::Begins(Session {
            client,
            user,
            number: self.next_number(),
            statements: 0,
            entries: records.len() as u32,
            results,
        });
        self.recorded(alloc, code, begins, instance, records, stamp)
    }

    // A logon that is refused: it is recorded, and begins no session.
    fn refused(&self, alloc: Global, admission: Admission, left: Left, stamp: Stamp) -> Outcome
        ensures reply { result.reply ≡ code_reply admission.code }
        ensures logged { logged_by result ≡ recorded left }
        ensures next { made_of result self.now.state ≡ after_refusal self.now.state stamp.0 left }
        ensures made { CanBeMade self.now.state result }
    {
        let Left { records, results } = left;
        let KeptResults {
            session: _,
            instance,
        } = results;
        self.recorded(
            alloc,
            admission.code,
            SessionChange::Nothing,
            instance,
            records,
            stamp,
        )
    }

    /// A logoff of a client.
    pub(crate) fn logoff<L: Ledger>(
        &self,
        alloc: Global,
        client: ClientNo,
        stamp: Stamp,
        steps: &mut Steps<L>,
    ) -> Result<Outcome, Memory>
        ensures step { IfOk result (λ outcome. LogoffStep self.now.state client stamp.0 outcome.reply (logged_by outcome) (made_of outcome self.now.state)) }
        ensures counted { CountsUp self.now.state (λ facts. MatchOption (session_of self.now.state.sessions client) ⊥ (λ seat. facts ≡ logoff_facts seat.session.user DONE)) steps.old steps.new }
        ensures made { IfOk result (CanBeMade self.now.state) }
    {
        match self.own_session(client) {
            None => Ok(self.unchanged(alloc, Code::NOT_LOGGED_ON)),
            Some(session) => {
                let outcome = self.ended(alloc, client, session, stamp, steps)?;
                Ok(outcome)
            }
        }
    }

    // A logoff of a client that has this session.
    fn ended<L: Ledger>(
        &self,
        alloc: Global,
        client: ClientNo,
        session: &Session,
        stamp: Stamp,
        steps: &mut Steps<L>,
    ) -> Result<Outcome, Memory>
        requires own { IsLawfulSession self.now.state.kept session.now }
        ensures step { IfOk result (λ outcome. EndStep self.now.state session.now client stamp.0 outcome.reply (logged_by outcome) (made_of outcome self.now.state)) }
        ensures counted { CountsUp self.now.state (λ facts. facts ≡ logoff_facts session.now.user DONE) steps.old steps.new }
        ensures made { IfOk result (CanBeMade self.now.state) }
    {
        let left = self.logoff_left(alloc, session, stamp, steps)?;
        Ok(self.without(alloc, client, left, stamp))
    }

    // What auditing leaves of a logoff.
    fn logoff_left<L: Ledger>(
        &self,
        alloc: Global,
        session: &Session,
        stamp: Stamp,
        steps: &mut Steps<L>,
    ) -> Result<Left, Memory>
        requires own { IsLawfulSession self.now.state.kept session.now }
        ensures counted { CountsUp self.now.state (λ facts. facts ≡ logoff_facts session.now.user DONE) steps.old steps.new }
        ensures left { IfOk result (λ left. left ≡ logoff_left self.now.state session.now stamp.0) }
    {
        let facts = logoff_facts(alloc, &session.user)?;
        let place = logoff_place(session, stamp);
        let left = self.event_left(alloc, &session.results, &facts, &place, &[], &[], steps)?;
        Ok(left)
    }

    // A logoff of the client, of which auditing leaves this.
    fn without(&self, alloc: Global, client: ClientNo, left: Left, stamp: Stamp) -> Outcome
        ensures reply { result.reply ≡ code_reply Code.DONE }
        ensures logged { logged_by result ≡ recorded left }
        ensures next { made_of result self.now.state ≡ after_logoff self.now.state client stamp.0 left }
        ensures made { CanBeMade self.now.state result }
    {
        let Left { records, results } = left;
        let KeptResults {
            session: _,
            instance,
        } = results;
        self.recorded(
            alloc,
            Code::DONE,
            SessionChange::Ends(client),
            instance,
            records,
            stamp,
        )
    }
}
