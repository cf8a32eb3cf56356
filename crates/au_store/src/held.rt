//! A store as the value of a turn: the histories that it stands for, and what its holders tell.
use crate::{Deed, Entry, Store};
use au_io::{Clock, Disk};
use au_turn::{Held, Made};

impl<D: Disk, C: Clock> Held for Store<D, C> {
    ghost use Rattle.au_store.specs.History.{StandsFor, first_of};

    type Entry = Entry;

    ghost stands = { λ store entries. StandsFor D.told D.meaning D.faults store entries };

    ghost first = { λ store. first_of D.faults store };

    fn begin(&self) {}
}

impl<D: Disk, C: Clock> Made<Store<D, C>> for Deed<'_> {
    ghost use Rattle.au_store.specs.History.{DeedTells};

    ghost tells = { DeedTells };
}
