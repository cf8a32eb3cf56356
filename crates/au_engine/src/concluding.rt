//! What a statement that is decided makes of the state.
ghost use Rattle.std.specs.Prelude.{◌≡◌, IfOk};
ghost use Rattle.au_ruling.specs.Rulings.{Comes};
ghost use Rattle.au_ruling.specs.Sound.{IsSoundStatement};
ghost use Rattle.au_step.specs.Replaying.{EndsWell};
ghost use Rattle.au_step.specs.State.{IsStampOf};
ghost use Rattle.au_step.specs.Step.{after_statement, decided_in, ground_of, statement_logged};
ghost use Rattle.au_engine.specs.Inside.{CanBeMade, IsOwn};
ghost use Rattle.au_engine.specs.Prepared.{logged_by, made_of};

use crate::Engine;
use crate::outcome::{Outcome, SessionChange};
use crate::rows::{rows_change, with_finals};
use crate::sessions::{counted, entries_after};
use crate::trail::last_after;
use au_base::{Memory, Stamp};
use au_entries::KeptResults;
use au_recording::Left;
use au_ruling::{Ruling, commits};
use au_step::{Session, rows_can_be_written};
use au_txn::Final;
use sql_ast::Statement;
use std::alloc::Global;

/// What a statement came to, what auditing leaves of it, and what becomes of the rows that it commits
/// before.
#[derive(Drop)]
pub(crate) struct Decided {
    pub finals: Vec<Final>,
    pub ruling: Ruling,
    pub left: Left,
}

impl Engine {
    /// The step of a statement of the session that is decided so.
    pub(crate) fn concluded(
        &self,
        alloc: Global,
        session: &Session,
        statement: &Statement,
        decided: Decided,
        stamp: Stamp,
    ) -> Result<Outcome, Memory>
        requires own { IsOwn self.now.state session.now }
        requires sound { IsSoundStatement statement.now }
        requires stamp { IsStampOf self.now.state stamp.0 }
        requires seated { EndsWell self.now.state.kept }
        requires comes { Comes (ground_of (decided_in self.now.state session.now.client statement.now) session.now statement.now stamp.0) statement.now decided.ruling }
        ensures reply { IfOk result (λ outcome. outcome.reply ≡ decided.ruling.reply) }
        ensures logged { IfOk result (λ outcome. logged_by outcome ≡ statement_logged statement.now session.now decided.finals.items decided.ruling decided.left) }
        ensures next { IfOk result (λ outcome. made_of outcome self.now.state
            ≡ after_statement (decided_in self.now.state session.now.client statement.now) session.now stamp.0 decided.ruling decided.left (statement_logged statement.now session.now decided.finals.items decided.ruling decided.left)) }
        ensures made { IfOk result (CanBeMade self.now.state) }
    {
        self.holds_together();
        rows_can_be_written();
        let Decided {
            finals,
            ruling,
            left,
        } = decided;
        let Ruling {
            code: _,
            used: _,
            reply,
            rows,
            changes,
            purge,
            forgets,
            fired: _,
            undoes,
        } = ruling;
        let Left { records, results } = left;
        let KeptResults {
            session: results,
            instance,
        } = results;
        let count = finals.as_slice().len();
        let changes = with_finals(alloc, finals, changes)?;
        let rows = rows_change(alloc, commits(statement), undoes, rows)?;
        Ok(Outcome {
            reply,
            sessions: SessionChange::Counts {
                client: session.client,
                statements: counted(session.statements),
                entries: entries_after(session.entries, records.len()),
                results,
                forgets,
                rows,
            },
            results: Some(instance),
            finals: count,
            last: last_after(self.keeping.last(), stamp, &changes, &purge, &records),
            changes,
            purge,
            records,
            framed: None,
        })
    }
}
