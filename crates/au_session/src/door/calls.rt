//! The calls of a door.
ghost use Rattle.std.specs.Prelude.{◌≡◌, ◌≢◌, ◌⊎◌, ◌↔◌, ◌<◌, ◌≤◌, ◌+◌, ◌++◌, true, false, List, IfSome, IsNone, IsTrue, Some};
ghost use Rattle.au_io.specs.Visits.{Finishes, IsFresh};
ghost use Rattle.au_session.specs.Answered.{MayComeBack};
ghost use Rattle.au_session.specs.declared.drawn.DoorEntry.{DoorEntry as AnyEntry};
ghost use Rattle.au_session.specs.Session.{told_of};
ghost use Rattle.au_session.specs.Spent.{IsSpent, one_less};
ghost use Rattle.au_session.specs.Stands.{DoorStands, drawn_entries, drawn_number, first_of};

use super::Door;
use crate::drawn::{DoorEntry, Drawn};
use crate::ended::Ended;
use au_base::ClientNo;
use au_io::{Lobby, Next};
use au_turn::{Held, Made};

impl<L: Lobby> Held for Door<L> {
    type Entry = DoorEntry;

    ghost stands = { λ door entries. DoorStands (L.visits door.lobby) (L.faults door.lobby) door.drawn door.back door.failed entries };

    ghost first = { λ door. first_of (L.visits door.lobby) (L.faults door.lobby) door.drawn door.back door.failed };

    fn begin(&self) {}
}

impl<L: Lobby> Made<Door<L>> for Drawn {
    ghost tells = { λ drawn entries. entries ≡ drawn_entries drawn.0 };
}

impl<L: Lobby> Door<L> {
    /// A door at which at most `left` connections are drawn, or all that come.
    pub fn new(lobby: L, left: Option<u32>) -> Door<L>
        ensures first { first_of (L.visits result.lobby) (L.faults result.lobby) result.drawn result.back result.failed ≡ first_of (L.visits lobby) (L.faults lobby) 0 0 false }
        ensures lobby { result.lobby ≡ lobby }
        ensures bound { result.left ≡ left }
        ensures counts { (result.drawn ≡ 0) × (result.back ≡ 0) }
        ensures unset { (result.short ≡ false) × (result.failed ≡ false) }
    {
        Door {
            lobby,
            left,
            drawn: 0,
            back: 0,
            short: false,
            failed: false,
        }
    }

    /// The next connection, with the number of its client, and the bound lowered by one. None where the
    /// bound or the last number is reached, the lobby has failed, or no connection is left. It waits for
    /// one.
    pub fn draw(&mut self) -> Option<(ClientNo, L::Link)>
        ensures number { IfSome result (λ drew. (drew.0.0 ≡ self.old.drawn + 1) × (self.new.drawn ≡ self.old.drawn + 1)) }
        ensures fresh { IfSome result (λ drew. IsFresh (told_of L.Link.left L.Link.taken L.Link.given L.Link.faults drew.1)) }
        ensures history { (history : List AnyEntry) → DoorStands (L.visits self.old.lobby) (L.faults self.old.lobby) self.old.drawn self.old.back self.old.failed history
            → DoorStands (L.visits self.new.lobby) (L.faults self.new.lobby) self.new.drawn self.new.back self.new.failed (history ++ drawn_entries (drawn_number result)) }
        ensures open { IfSome result (λ _. (self.old.left ≢ Some 0) × (self.old.failed ≡ false)) }
        ensures lowers { IfSome result (λ _. self.new.left ≡ one_less self.old.left) }
        ensures stays { IsNone result → self.new.left ≡ self.old.left }
        ensures same { (self.new.back ≡ self.old.back) × (self.new.short ≡ self.old.short) }
        ensures none { IsNone result → IsSpent (L.visits self.new.lobby) self.new.left self.new.drawn self.new.failed }
    {
        if is_zero(self.left) || self.drawn == u32::MAX || self.failed {
            return None;
        }
        match self.lobby.next() {
            Next::Link(link) => {
                self.drawn += 1;
                self.left = lowered(self.left);
                Some((ClientNo(self.drawn), link))
            }
            Next::Closed => None,
            Next::Failed => {
                self.failed = true;
                None
            }
        }
    }

    /// Takes back a connection that was served. Where that ended for want of memory, or as many are back
    /// as were drawn, it is dropped, and the lobby doesn't get it back as finished.
    pub fn take_back(&mut self, link: L::Link, ended: &Ended)
        requires { MayComeBack ended.now (told_of L.Link.left L.Link.taken L.Link.given L.Link.faults link) }
        ensures history { (history : List AnyEntry) → DoorStands (L.visits self.old.lobby) (L.faults self.old.lobby) self.old.drawn self.old.back self.old.failed history
            → DoorStands (L.visits self.new.lobby) (L.faults self.new.lobby) self.new.drawn self.new.back self.new.failed history }
        ensures finished { ended.now ≢ Ended.Memory → self.old.back < self.old.drawn → (self.new.back ≡ self.old.back + 1) × ((self.new.short ≡ self.old.short)
            × Finishes (L.visits self.old.lobby) (L.visits self.new.lobby) (told_of L.Link.left L.Link.taken L.Link.given L.Link.faults link)) }
        ensures dropped { (ended.now ≡ Ended.Memory) ⊎ (self.old.drawn ≤ self.old.back) → (self.new.back ≡ self.old.back) × ((self.new.short ≡ true) × (L.visits self.new.lobby ≡ L.visits self.old.lobby)) }
        ensures same { (self.new.left ≡ self.old.left) × ((self.new.drawn ≡ self.old.drawn) × (self.new.failed ≡ self.old.failed)) }
    {
        if !is_memory(ended) && self.back < self.drawn {
            self.lobby.finish(link);
            self.back += 1;
        } else {
            self.short = true;
        }
    }

    /// The lobby, where no more connections are drawn.
    pub fn into_lobby(self) -> L
        ensures { result ≡ self.lobby }
    {
        let Door {
            lobby,
            left: _,
            drawn: _,
            back: _,
            short: _,
            failed: _,
        } = self;
        lobby
    }
}

fn is_zero(left: Option<u32>) -> bool
    ensures { IsTrue result ↔ (left ≡ Some 0) }
{
    match left {
        Some(left) => left == 0,
        None => false,
    }
}

fn is_memory(ended: &Ended) -> bool
    ensures { IsTrue result ↔ (ended.now ≡ Ended.Memory) }
{
    match ended {
        Ended::Memory => true,
        Ended::Closed | Ended::Cut | Ended::Refused(_) | Ended::LinkFault => false,
    }
}

fn lowered(left: Option<u32>) -> Option<u32>
    ensures { result ≡ one_less left }
{
    match left {
        Some(left) => Some(left.saturating_sub(1)),
        None => None,
    }
}
