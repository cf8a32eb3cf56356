//! Steps that are worked out.
ghost use Rattle.std.specs.Prelude.{◌≡◌, [], None};
ghost use Rattle.au_engine.specs.Prepared.{commits_by};

use au_base::{Cell, ClientNo, List, Name, Reply, Stamp};
use au_entries::{Change, Record};
use au_step::Session;
use au_txn::RowChange;
use std::alloc::Global;

/// What becomes of a client's changes of rows that aren't committed.
#[derive(Drop)]
pub enum RowsChange {
    Nothing,
    /// They are committed.
    Commits,
    /// They go on by these changes. The contents are the new ones of those changes that have one, in
    /// order.
    Writes {
        changes: List<RowChange>,
        contents: Vec<Vec<Cell>>,
    },
    /// They are taken back.
    Undoes,
}

/// What becomes of the sessions.
#[derive(Drop)]
pub enum SessionChange {
    Nothing,
    /// This session begins, as the instance's next one.
    Begins(Session),
    /// The client's session has these counts of statements and records, and these results of
    /// conditions, and this becomes of its transaction. All other sessions forget the results of these
    /// policies.
    Counts {
        client: ClientNo,
        statements: u32,
        entries: u32,
        results: List<(Name, bool)>,
        forgets: List<Name>,
        rows: RowsChange,
    },
    /// The client's session ends, and its changes of rows that aren't committed are lost.
    Ends(ClientNo),
}

/// A step that is worked out, and whose changes aren't ready to be made yet.
#[derive(Drop)]
pub(crate) struct Outcome {
    pub reply: Reply,
    pub sessions: SessionChange,
    /// The instance's results of conditions after the step, where it doesn't leave them as they are.
    pub results: Option<List<(Name, bool)>>,
    /// So many of the changes, in front, are what becomes of the rows that are committed.
    pub finals: usize,
    /// What it changes of what is kept, in the order in which it happens.
    pub changes: List<Change>,
    /// Of a purge: the records stamped before this moment go, or all of them where it names none.
    pub purge: Option<Option<Stamp>>,
    /// The records that it leaves.
    pub records: List<Record>,
    /// The last stamp after the step.
    pub last: Stamp,
    /// The framed bytes of the frame that it writes, once they are written, where it leaves something
    /// to be kept.
    pub framed: Option<List<u8>>,
}

impl Outcome {
    /// A step of which nothing but these records is kept. It takes no memory.
    pub(crate) fn of_records(
        alloc: Global,
        reply: Reply,
        sessions: SessionChange,
        results: Option<List<(Name, bool)>>,
        records: List<Record>,
        last: Stamp,
    ) -> Outcome
        ensures { result ≡ record { reply = reply; sessions = sessions; results = results; finals = 0; changes = []; purge = None; records = records; last = last; framed = None } }
    {
        Outcome {
            reply,
            sessions,
            results,
            finals: 0,
            changes: List::new(alloc),
            purge: None,
            records,
            last,
            framed: None,
        }
    }
}
