//! Laws of what stands on a disk.
ghost use Rattle.std.specs.Prelude.{◌≡◌, ℕ, List, Option};
ghost use Rattle.au_entries.specs.declared.kept.Kept.{Kept};
ghost use Rattle.au_io.specs.Areas.{Areas, IsBounded};
ghost use Rattle.au_io.specs.declared.disk.Area.{Area};
ghost use Rattle.au_journal.specs.Walk.{IsUnformatted};
ghost use Rattle.rec_codec.specs.declared.frame.Frame.{Frame};
ghost use Rattle.au_step.specs.State.{State, start};
ghost use Rattle.au_step.specs.Step.{Event};
ghost use Rattle.au_store.specs.declared.entry.Entry.{Entry};
ghost use Rattle.au_store.specs.declared.open_fault.OpenFault.{OpenFault};
ghost use Rattle.au_store.specs.declared.open_fault.OpenFault.TheVariants as fault;
ghost use Rattle.au_store.specs.Doubts.{EventWrites};
ghost use Rattle.au_store.specs.History.{BeginsInDoubt, GoesBy, HasToWrite, Leads, LeavesInDoubt, Reached};
ghost use Rattle.au_store.specs.Opened.{IsBare};
ghost use Rattle.au_store.specs.Recovery.{ReadsAs, RecoversTo};
ghost use Rattle.au_store.specs.Starting.{IsOfBytes, IsOpened, OpenSays};

use au_journal::{frames_stand_in_a_row, one_standing};
use au_step::one_result;
use rec_codec::one_front;

/// Areas read as one thing. Those that recover to what is kept read as it, and don't end where their
/// bodies end: a store that is opened on them is safe from a crash at any moment.
pub fn one_recovery()
    ensures one { (all : Areas) (kept other : Kept) → IsBounded all → ReadsAs kept all → ReadsAs other all → kept ≡ other }
    ensures reads { (all : Areas) (kept : Kept) → RecoversTo kept all → ReadsAs kept all }
    ensures gated { (all : Areas) (kept : Kept) → IsBounded all → RecoversTo kept all → IsBare all → ⊥ }
{
    one_front();
    one_standing();
}

/// Areas that read as what is kept, and areas of which the selected one isn't formatted, aren't damaged
/// anywhere; and the former are formatted. So no image that a crash leaves of a store that was made
/// here is damaged, also where no number is left for another instance.
pub fn never_damaged()
    ensures whole { (all : Areas) (kept : Kept) (area : Area) (at : ℕ) → IsBounded all → ReadsAs kept all → OpenSays all (fault.Damaged area at) → ⊥ }
    ensures blank { (all : Areas) (area : Area) (at : ℕ) → IsUnformatted all → OpenSays all (fault.Damaged area at) → ⊥ }
    ensures formatted { (all : Areas) (kept : Kept) → ReadsAs kept all → IsUnformatted all → ⊥ }
{
    frames_stand_in_a_row();
    one_standing();
}

/// A store that is opened on areas which recover to what is kept is in the state of the next instance
/// over that: what a store kept when it was shut is what the next one begins with.
pub fn reopened()
    ensures { (all : Areas) (kept : Kept) (reading : ℕ) (m : State) → IsBounded all → RecoversTo kept all → IsOpened all reading m → m ≡ start kept reading }
{
    one_recovery();
}

/// The bytes of areas give one reason why a store on them can't be opened: that the selected one
/// isn't formatted, its first damage, or that no number is left for another instance. They give none
/// where a store is opened on them.
pub fn one_cause()
    ensures one { (all : Areas) (why other : OpenFault) → IsBounded all → OpenSays all why → OpenSays all other → IsOfBytes why → IsOfBytes other → why ≡ other }
    ensures opened { (all : Areas) (why : OpenFault) (reading : ℕ) (m : State) → IsBounded all → IsOpened all reading m → OpenSays all why → IsOfBytes why → ⊥ }
{
    frames_stand_in_a_row();
    one_standing();
    one_recovery();
}

/// An entry takes a store from one place to one other, and a list of entries leads to one place; and an
/// event writes one frame, or none.
pub fn one_end()
    ensures entry { (p q r : Reached) (entry : Entry) → GoesBy p entry q → GoesBy p entry r → q ≡ r }
    ensures list { (entries : List Entry) (p q : Reached) → Leads entries p → Leads entries q → p ≡ q }
    ensures frame { (m n k : State) (event : Event) (one other : Option Frame) → EventWrites m event n one → EventWrites m event k other → one ≡ other }
{
    one_result();
}

/// A list leaves one step in doubt at most: one of its own, which had a frame to write, or the one with
/// which it begins.
pub fn one_doubt()
    ensures one { (entries : List Entry) (p q : Reached) (one other : Event) → LeavesInDoubt entries p one → LeavesInDoubt entries q other → (p ≡ q) × (one ≡ other) }
    ensures begun { (entries : List Entry) (place : Reached) (event : Event) → LeavesInDoubt entries place event → BeginsInDoubt entries → ⊥ }
    ensures wrote { (entries : List Entry) (p q : Reached) (event : Event) → Leads entries q → LeavesInDoubt entries p event → HasToWrite p event }
{
    one_result();
}
