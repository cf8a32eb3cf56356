//! What statements come to.
ghost use Rattle.std.specs.Prelude.{◌≡◌};
ghost use Rattle.au_ruling.specs.Rulings.{code_reply, ended, of_decision, of_plan};

use au_base::{Code, List, Name, Privilege, Reply, Stamp};
use au_entries::{Change, Decision, FgaName};
use au_txn::RowChange;
use au_world::RowPlan;
use std::alloc::Global;

/// What a statement comes to before it is made.
#[derive(Debug, Drop)]
pub struct Ruling {
    pub code: Code,
    /// The system privileges that made it possible, in the order of their numbers.
    pub used: List<Privilege>,
    pub reply: Reply,
    /// The changes of rows by which it goes on its session's transaction.
    pub rows: List<RowChange>,
    /// What it changes of what is kept, in the order in which it happens.
    pub changes: List<Change>,
    /// Of a purge: the records stamped before this moment go, or all of them where it names none.
    pub purge: Option<Option<Stamp>>,
    /// The audit policies whose kept results of conditions are forgotten.
    pub forgets: List<Name>,
    /// The fine-grained policies that demand a record, by policy, owner and table.
    pub fired: List<FgaName>,
    /// Whether its session's transaction is undone.
    pub undoes: bool,
}

impl Ruling {
    /// What a statement on rows comes to by its plan. It takes no memory.
    pub fn of_plan(alloc: Global, plan: RowPlan) -> Ruling
        ensures { result ≡ of_plan plan }
    {
        Ruling {
            code: plan.code,
            used: plan.used,
            reply: plan.reply,
            rows: plan.changes,
            changes: List::new(alloc),
            purge: None,
            forgets: List::new(alloc),
            fired: plan.fired,
            undoes: false,
        }
    }

    /// What another statement comes to by what is decided of it. It takes no memory.
    pub fn of_decision(alloc: Global, decision: Decision) -> Ruling
        ensures { result ≡ of_decision decision }
    {
        Ruling {
            code: decision.code,
            used: decision.used,
            reply: code_reply(alloc, decision.code),
            rows: List::new(alloc),
            changes: decision.changes,
            purge: decision.purge,
            forgets: decision.forgets,
            fired: List::new(alloc),
            undoes: false,
        }
    }

    /// What COMMIT and ROLLBACK come to: whether the transaction is undone. It takes no memory.
    pub fn ended(alloc: Global, undoes: bool) -> Ruling
        ensures { result ≡ ended undoes }
    {
        Ruling {
            code: Code::DONE,
            used: List::new(alloc),
            reply: code_reply(alloc, Code::DONE),
            rows: List::new(alloc),
            changes: List::new(alloc),
            purge: None,
            forgets: List::new(alloc),
            fired: List::new(alloc),
            undoes,
        }
    }
}

// A code alone.
fn code_reply(alloc: Global, code: Code) -> Reply
    ensures { result ≡ code_reply code }
{
    Reply {
        code,
        columns: List::new(alloc),
        count: 0,
        rows: List::new(alloc),
    }
}
