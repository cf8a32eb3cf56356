//! The changes of all open transactions.
ghost use Rattle.std.specs.Prelude.{◌≡◌, ◌+◌, ◌<◌, ◌≤◌, ◌++◌, ◌∷◌, [], IfNone, IfOk, IfSome, OnOk, false, length};
ghost use Rattle.std.specs.List.{list_any};
ghost use Rattle.au_rows.specs.Ends.{is_own};
ghost use Rattle.au_rows.specs.Links.{Taken, live};

use crate::entry::Entry;
use crate::links::{add, make_room, make_way, no_tops, take_newest};
use crate::unsettled::Unsettled;
use au_base::{ClientNo, Memory};
use std::alloc::Global;
use std::marker::Model;

/// The changes of all open transactions, in the order in which they were made. Contracts see the
/// list of them, and how many more it takes without memory.
#[derive(Drop)]
pub struct Changes {
    /// The changes, and the places of those that are gone.
    entries: Vec<Option<Entry>>,
    /// Where each lane's newest change is kept.
    tops: Vec<Option<u32>>,
}

impl Model for Changes {
    ghost use Rattle.au_rows.specs.Links.{Listed};

    ghost Value = { Listed };

    ghost use Rattle.std.specs.Prelude.{◌≡◌, ◌-◌, ◌≤◌, ◌^◌, None, length, min, slice_index_or, vec_len, vec_capacity};
    ghost use Rattle.au_rows.specs.Links.{Linked, live};

    ghost view = { λ c. record { listed = live c.entries.items; room = min (vec_capacity c.entries) (2 ^ 32) - length (live c.entries.items) } };

    ghost invariant = { λ c. Linked c.entries.items (λ lane. slice_index_or c.tops.items lane None) (vec_len c.entries) × (vec_len c.tops ≡ 4096) × (vec_len c.entries ≤ 2 ^ 32) };
}

impl Changes {
    /// No change, and no room.
    pub(crate) fn new(alloc: Global) -> Result<Self, Memory>
        ensures listed { IfOk result (λ changes. changes.listed ≡ []) }
        ensures room { IfOk result (λ changes. changes.room ≡ 0) }
    {
        let tops = no_tops(alloc)?;
        Ok(Changes {
            entries: Vec::new(alloc),
            tops,
        })
    }

    /// Makes room for so many more changes.
    pub(crate) fn reserve(&mut self, more: usize) -> Result<(), Memory>
        ensures ok { OnOk result (more ≤ self.new.room) }
        ensures listed { self.new.listed ≡ self.old.listed }
        ensures room { self.old.room ≤ self.new.room }
    {
        make_room(&mut self.entries, &mut self.tops, more)
    }

    /// Takes a change in, behind all others. It takes no memory.
    pub(crate) fn push(&mut self, change: Unsettled)
        requires { 0 < self.old.room }
        ensures listed { self.new.listed ≡ self.old.listed ++ change ∷ [] }
        ensures room { self.old.room ≤ self.new.room + 1 }
    {
        make_way(&mut self.entries, &mut self.tops);
        add(&mut self.entries, &mut self.tops, change);
    }

    /// Takes the client's newest change out. `None` exactly where it has none.
    pub(crate) fn pop(&mut self, by: ClientNo) -> Option<Unsettled>
        ensures taken { IfSome result (λ change. Taken by change self.old.listed self.new.listed) }
        ensures room { self.old.room + length self.old.listed ≤ self.new.room + length self.new.listed }
        ensures none { IfNone result (list_any (is_own by) self.old.listed ≡ false) }
        ensures same { IfNone result (self.new.listed ≡ self.old.listed) }
    {
        take_newest(&mut self.entries, &mut self.tops, by)
    }

    /// The changes, and the places of those that are gone.
    pub(crate) fn entries(&self) -> &[Option<Entry>]
        ensures { live result.now ≡ self.now.listed }
    {
        &self.entries
    }
}
