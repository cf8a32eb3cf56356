//! What is asked of a store between two steps, and its end.
ghost use Rattle.std.specs.Prelude.{◌≡◌, ◌++◌, ◌∷◌, [], List, is_some};
ghost use Rattle.au_io.specs.Moments.{Leaves};
ghost use Rattle.au_step.specs.Abandoning.{abandoned};
ghost use Rattle.au_step.specs.Step.{session_of};

use crate::Store;
use au_base::ClientNo;
use au_io::{Clock, Disk};

impl<D: Disk, C: Clock> Store<D, C> {
    ghost use Rattle.au_store.specs.declared.entry.Entry.{Entry};
    ghost use Rattle.au_store.specs.declared.entry.Entry.TheVariants.{Abandoned};
    ghost use Rattle.au_store.specs.Doubts.{IsAtRest};
    ghost use Rattle.au_store.specs.History.{BeginsInDoubt, ListLeaves, StandsFor};

    /// The last reading that the clock gave.
    pub fn reading(&self) -> u64
        ensures { result ≡ self.now.reading }
    {
        self.reading
    }

    /// Whether the client has a session.
    pub fn stands(&self, client: ClientNo) -> bool
        ensures { result ≡ is_some (session_of self.now.state.sessions client) }
    {
        self.engine.stands(client)
    }

    /// Ends the client's session, where it has one: nothing else is changed, nothing is recorded and
    /// nothing is written. It takes no memory and can't fail.
    pub fn abandon(&mut self, client: ClientNo)
        ensures state { self.new.state ≡ abandoned client self.old.state }
        ensures history { (entries : List Entry) → StandsFor D.told D.meaning D.faults self.old entries → StandsFor D.told D.meaning D.faults self.new (entries ++ Abandoned client ∷ []) }
        ensures same { (self.new.disk ≡ self.old.disk) × (self.new.seat ≡ self.old.seat) × (self.new.clock ≡ self.old.clock) × (self.new.reading ≡ self.old.reading) }
    {
        self.engine.abandon(client);
    }

    /// What a crash may leave between two calls: what is kept, or, where a step is in doubt, what is
    /// kept after the event of that step, in the state it came from. A list for which the store stands
    /// names that step, unless it begins in doubt. It does nothing.
    pub fn at_rest(&self)
        ensures rests { D.told → IsAtRest self.now.state (D.meaning self.now.disk) self.now.seat }
        ensures list { D.told → (entries : List Entry) → StandsFor D.told D.meaning D.faults self.now entries → (BeginsInDoubt entries → ⊥)
            → Leaves (ListLeaves entries self.now.state.kept) (D.meaning self.now.disk) }
    {
        let _ = &self.reading;
    }

    /// The disk and the clock, as they are.
    pub fn shut(self) -> (D, C)
        ensures disk { result.0 ≡ self.disk }
        ensures clock { result.1 ≡ self.clock }
    {
        let Store {
            engine,
            journal,
            clock,
            reading: _,
        } = self;
        drop(engine);
        (journal.shut(), clock)
    }
}
