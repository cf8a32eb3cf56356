//! A small held value: a counter with a limit, and the entries for which it stands.
ghost use Rattle.std.specs.Prelude.{◌≡◌, List, [], ◌∷◌, ◌++◌, sum_by, MatchOption};

use au_turn::{Held, Made};

/// What one deed left: what it added, and the faults that it met.
#[derive(Clone, Copy)]
pub struct Entry {
    pub added: u64,
    pub faults: u64,
}

#[derive(Drop)]
pub struct Counter {
    pub total: u64,
    pub faults: u64,
    pub limit: u64,
}

/// What a holder did: it told one entry, a fault's entry, or nothing.
#[derive(Drop)]
pub struct Deed {
    pub entry: Option<Entry>,
}

impl Held for Counter {
    type Entry = Entry;

    // the total is the sum of what was added, and the faults are the sum of those met
    ghost stands = { λ counter entries. (counter.total ≡ sum_by (λ e. e.added) entries)
        × (counter.faults ≡ sum_by (λ e. e.faults) entries) };

    ghost first = { λ counter. record { added = counter.total; faults = counter.faults } ∷ [] };

    fn begin(&self) {}
}

impl Made<Counter> for Deed {
    ghost tells = { λ deed entries. MatchOption deed.entry (entries ≡ []) (λ e. entries ≡ e ∷ []) };
}

impl Counter {
    pub fn new(limit: u64) -> Counter {
        Counter {
            total: 0,
            faults: 0,
            limit,
        }
    }

    /// Adds, or counts a fault where that would pass the limit. Nothing is done where there is nothing to add.
    pub fn add(&mut self, by: u64) -> Deed
        ensures { (history : List Entry) → ⟦<Counter as Held>⟧.stands self.old history
            → (more : List Entry) × ⟦<Deed as Made<Counter>>⟧.tells result more × ⟦<Counter as Held>⟧.stands self.new (history ++ more) }
    {
        if by == 0 || self.faults == u64::MAX {
            return Deed { entry: None };
        }
        let entry = if by <= self.limit && self.total <= self.limit - by {
            self.total += by;
            Entry {
                added: by,
                faults: 0,
            }
        } else {
            self.faults += 1;
            Entry {
                added: 0,
                faults: 1,
            }
        };
        Deed { entry: Some(entry) }
    }
}
