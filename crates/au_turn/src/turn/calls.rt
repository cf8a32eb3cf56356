//! The calls of a turn.
ghost use Rattle.std.specs.Prelude.{◌≡◌, ◌+◌, ◌%◌, ◌^◌, ◌<◌, ◌≤◌, List, [], ◌++◌, IfOk, IsOkAnd, IfErr, MatchBool};
ghost use mathlib.Core.List.{IsPrefix};
ghost use Rattle.au_turn.specs.Entries.{StandsIn, longer};
ghost use Rattle.au_turn.specs.View.{announcing};
ghost use Rattle.au_turn.specs.Rule.{Got, IsLegal};
ghost use Rattle.au_turn.specs.Pass.{IsPassOf, IsHeld, IsIdle, SameSeat, GrewBy, seen, mine};

use super::Turn;
use crate::held::Held;
use crate::made::Made;
use crate::pass::Pass;
use crate::rule::{Announce, Both, Empty, Meet, Part, Release, Take, Telling};
use atomic_table::{Refused, Table};
use au_base::Memory;
use std::alloc::Global;
use std::marker::Brand;
use std::snapshot::Snapshot;
use std::sync::Wait;

// A turn that was given back this often isn't got again, so that the word never wraps.
const MOST_TURNS: u64 = 1 << 62;

impl<T: Held> Turn<T> {
    /// A turn over the value, and its first pass. Without memory the value comes back.
    pub fn open(alloc: Global, value: T) -> Result<(Turn<T>, Pass<T>), (T, Memory)>
        ensures own { IfOk result (λ r. IsPassOf r.0 r.1 × IsIdle r.1) }
        ensures seen { IfOk result (λ r. seen r.1 ≡ T.first value) }
        ensures mine { IfOk result (λ r. mine r.1 ≡ []) }
        ensures err { IfErr result (λ e. e.0 ≡ value) }
    {
        value.begin();
        let about = Snapshot::of(&value);
        let mut slots = Vec::new(alloc);
        if slots.reserve(1).is_err() {
            slots.destroy_empty();
            return Err((value, Memory));
        }
        slots.push_reserved(Some(value));
        match Table::new(alloc, &[0], slots, &about) {
            Ok((table, seat)) => Ok((Turn { table }, Pass { seat })),
            Err(Refused { slots }) => {
                let mut slots = slots;
                let Some(Some(value)) = slots.pop() else {
                    unreachable!()
                };
                slots.destroy_empty();
                Err((value, Memory))
            }
        }
    }

    // One try to get the value, where the word was found free.
    fn grab(&self, pass: &mut Pass<T>, word: u64) -> bool
        requires own { IsPassOf self.now pass.old }
        requires idle { IsIdle pass.old }
        requires free { (word % 2 ≡ 0) × (word < 2 ^ 63) }
        ensures same { SameSeat pass.old pass.new }
        ensures got { MatchBool result
            (Got T.stands pass.old.seat.me pass.new.seat.me)
            (pass.new.seat.me ≡ pass.old.seat.me) }
    {
        self.table
            .shared
            .compare_exchange::<Take>(&mut pass.seat, 0, word, word + 1)
            == word
    }

    // Sleeps where the value isn't to be had: a pass holds it, or the turn was given back 2^62 times.
    fn sleep_at<R: Wait>(&self, rt: &R, word: u64)
        requires apart { word % 2 ≡ 0 → 2 ^ 63 ≤ word }
    {
        self.table.shared.park(rt, 0, (word % (1 << 32)) as u32);
    }

    /// Waits for the value, and takes it. A turn that was given back 2^62 times isn't got again.
    pub fn take<R: Wait>(&self, rt: &R, pass: &mut Pass<T>) -> T
        requires own { IsPassOf self.now pass.old }
        requires idle { IsIdle pass.old }
        ensures own { IsPassOf self.now pass.new }
        ensures held { IsHeld pass.new }
        ensures seen { IsPrefix (seen pass.old) (seen pass.new) }
        ensures mine { mine pass.new ≡ mine pass.old }
        ensures value { T.stands result (seen pass.new) }
    {
        for _ in rt.forever() {
            let word = self.table.shared.peek(0);
            if word % 2 == 0 && word < 2 * MOST_TURNS {
                if self.grab(pass, word) {
                    let Some(value) = self.table.shared.exchange(&mut pass.seat, 0, None) else {
                        unreachable!()
                    };
                    return value;
                }
            } else {
                self.sleep_at(rt, word);
            }
        }
        unreachable!()
    }

    // Announces the entries that the holder is about to make known.
    fn announce<N: Made<T>, B: Telling<T::Entry>>(&self, pass: &mut Pass<T>, value: &T, made: &N)
        requires own { IsPassOf self.now pass.old }
        requires held { IsHeld pass.old }
        requires told { (more : List T.Entry) × B.told more × IsLegal T.stands (seen pass.old ++ more) }
        ensures same { SameSeat pass.old pass.new }
        ensures told { (more : List T.Entry) × B.told more
            × (pass.new.seat.me ≡ (announcing pass.old.seat.me.0 more, pass.old.seat.me.1)) }
    {
        self.table.shared.load::<Announce<B>>(&mut pass.seat, 0);
    }

    /// Gives the value back, with the entries that were made since it was taken.
    pub fn give_back<N: Made<T>>(&self, pass: &mut Pass<T>, value: T, made: &N)
        requires own { IsPassOf self.now pass.old }
        requires held { IsHeld pass.old }
        requires value { (more : List T.Entry) × N.tells made.now more × T.stands value (seen pass.old ++ more) }
        ensures own { IsPassOf self.now pass.new }
        ensures idle { IsIdle pass.new }
        ensures entries { (more : List T.Entry) × N.tells made.now more × GrewBy more pass.old pass.new }
        ensures value { T.stands value (seen pass.new) }
    {
        self.announce::<N, Brand>(pass, &value, made);
        let rest = self.table.shared.exchange(&mut pass.seat, 0, Some(value));
        let None = rest else { unreachable!() };
        self.table.shared.fetch_add::<Release>(&mut pass.seat, 0, 1);
        self.table.shared.wake_one(0);
    }

    /// A second pass, which has seen as much and made nothing.
    pub fn split(&self, pass: &mut Pass<T>) -> Result<Pass<T>, Memory>
        requires own { IsPassOf self.now pass.old }
        requires idle { IsIdle pass.old }
        ensures own { IsPassOf self.now pass.new }
        ensures idle { IsIdle pass.new }
        ensures seen { seen pass.new ≡ seen pass.old }
        ensures mine { mine pass.new ≡ mine pass.old }
        ensures other { IsOkAnd result (λ other. IsPassOf self.now other × IsIdle other) }
        ensures other_seen { IfOk result (λ other. seen other ≡ seen pass.old) }
        ensures other_mine { IfOk result (λ other. mine other ≡ []) }
    {
        let seat = self.table.shared.split_seat::<Part>(&mut pass.seat);
        Ok(Pass { seat })
    }

    /// Spends the other pass: this one has then seen what either had seen.
    pub fn join(&self, pass: &mut Pass<T>, other: Pass<T>)
        requires own { IsPassOf self.now pass.old }
        requires idle { IsIdle pass.old }
        requires other_own { IsPassOf self.now other }
        requires other_idle { IsIdle other }
        ensures own { IsPassOf self.now pass.new }
        ensures idle { IsIdle pass.new }
        ensures seen { seen pass.new ≡ longer (seen pass.old) (seen other) }
        ensures first { IsPrefix (seen pass.old) (seen pass.new) }
        ensures second { IsPrefix (seen other) (seen pass.new) }
        ensures mine { mine pass.new ≡ mine pass.old }
        ensures other_mine { StandsIn (mine other) (seen pass.new) }
    {
        let Pass { seat } = other;
        self.table.shared.join_seat::<Both>(&mut pass.seat, seat);
        self.table.shared.load::<Meet>(&mut pass.seat, 0);
    }

    /// Waits for the value as `take` does, and takes the turn apart.
    pub fn close<R: Wait>(self, rt: &R, mut pass: Pass<T>) -> T
        requires own { IsPassOf self pass }
        requires idle { IsIdle pass }
        ensures value { (history : List T.Entry) × IsPrefix (seen pass) history × T.stands result history }
    {
        let value = self.take(rt, &mut pass);
        let Pass { mut seat } = pass;
        self.table.shared.load::<Empty>(&mut seat, 0);
        let Turn { table } = self;
        let mut closed = table.close_with(seat);
        let rest = closed.take(0);
        let None = rest else { unreachable!() };
        closed.free();
        value
    }
}
