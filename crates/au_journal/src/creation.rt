//! The steps of a format, each from one state of the disk to the next.
ghost use Rattle.std.specs.Prelude.{◌≡◌, ◌≤◌, ◌+◌, ◌++◌, [], ◌∷◌, List, ℕ, length, OnOk};
ghost use Rattle.au_io.specs.Areas.{Areas, On, Torn, Cut};
ghost use Rattle.au_io.specs.Disk.{Passes, HasCause};
ghost use Rattle.au_io.specs.Moments.{LeavesSince};
ghost use Rattle.au_io.specs.declared.disk.Area.TheVariants.{Head, A};
ghost use Rattle.au_journal.specs.Creation.{IsOnly, a_cut, a_selected, gate_shut, rest_written, laid_down, IsGateShut, IsOnTheWay};
ghost use Rattle.au_journal.specs.Frames.{new_head};

use crate::gates::{OPEN, SHUT};
use crate::synced::{select, write_synced};
use au_io::{Area, Disk, Failed};

/// From all synced to A cut.
pub(crate) fn cut_a<D: Disk>(disk: &mut D) -> Result<(), Failed>
    ensures done { D.told → (all : Areas) → IsOnly all (D.meaning disk.old) → OnOk result (IsOnly (a_cut all) (D.meaning disk.new)) }
    ensures any_moment { (all : Areas) → IsOnly all (D.meaning disk.old) → LeavesSince (On A (Cut 0) all) (D.meaning disk.old) (D.meaning disk.new) }
    ensures reads { D.told → OnOk result ((D.meaning disk.new).reads ≡ a_cut (D.meaning disk.old).reads) }
    ensures time { Passes (D.meaning disk.old) (D.meaning disk.new) }
    ensures cause { HasCause (D.faults disk.old) (D.faults disk.new) result }
{
    disk.cut(Area::A, 0)?;
    disk.sync(Area::A)
}

/// From A cut to A selected.
pub(crate) fn select_a<D: Disk>(disk: &mut D) -> Result<(), Failed>
    ensures done { D.told → (all : Areas) → IsOnly (a_cut all) (D.meaning disk.old) → OnOk result (IsOnly (a_selected all) (D.meaning disk.new)) }
    ensures any_moment { (all : Areas) → IsOnly all (D.meaning disk.old) → LeavesSince (On Head (Torn 0 1) all) (D.meaning disk.old) (D.meaning disk.new) }
    ensures reads { D.told → OnOk result ((D.meaning disk.new).reads.a ≡ (D.meaning disk.old).reads.a) }
    ensures time { Passes (D.meaning disk.old) (D.meaning disk.new) }
    ensures cause { HasCause (D.faults disk.old) (D.faults disk.new) result }
{
    select(disk, Area::A)
}

/// From A selected to gate shut.
pub(crate) fn shut_a<D: Disk>(disk: &mut D) -> Result<(), Failed>
    ensures done { D.told → (all : Areas) → IsOnly (a_selected all) (D.meaning disk.old) → OnOk result (IsOnly (gate_shut all) (D.meaning disk.new)) }
    ensures any_moment { (all : Areas) → IsOnly all (D.meaning disk.old) → LeavesSince (On A (Torn 0 1) all) (D.meaning disk.old) (D.meaning disk.new) }
    ensures reads { D.told → (D.meaning disk.old).reads.a ≡ [] → OnOk result ((D.meaning disk.new).reads.a ≡ 0 ∷ []) }
    ensures time { Passes (D.meaning disk.old) (D.meaning disk.new) }
    ensures cause { HasCause (D.faults disk.old) (D.faults disk.new) result }
{
    write_synced(disk, Area::A, 0, &[SHUT])
}

/// From gate shut to rest written: all that stands behind the gate of a new area, in two writes
/// parted at place 14, so that no memory is taken.
pub(crate) fn write_rest<D: Disk>(disk: &mut D, limit: u32, framed: &[u8]) -> Result<(), Failed>
    requires shut { D.told → (D.meaning disk.old).reads.a ≡ 0 ∷ [] }
    ensures done { D.told → (all : Areas) → IsOnly (gate_shut all) (D.meaning disk.old)
        → OnOk result (IsOnly (rest_written limit framed.now all) (D.meaning disk.new)) }
    ensures any_moment { (all : Areas) → IsOnly (gate_shut all) (D.meaning disk.old)
        → LeavesSince (On A (λ _ new. IsGateShut new) (gate_shut all)) (D.meaning disk.old) (D.meaning disk.new) }
    ensures time { Passes (D.meaning disk.old) (D.meaning disk.new) }
    ensures cause { HasCause (D.faults disk.old) (D.faults disk.new) result }
{
    disk.write_at(Area::A, 1, &head_of(limit))?;
    write_synced(disk, Area::A, 14, framed)
}

pub(crate) fn head_of(limit: u32) -> [u8; 13]
    ensures { result ≡ new_head limit }
{
    let [a, b, c, d] = limit.to_be_bytes();
    [
        b'A', b'U', b'J', b'R', b'N', b'L', b'0', b'1', a, b, c, d, OPEN,
    ]
}

/// From rest written to the end.
pub(crate) fn open_a<D: Disk>(disk: &mut D) -> Result<(), Failed>
    ensures done { D.told → (limit : ℕ) (framed : List ℕ) (all : Areas) → IsOnly (rest_written limit framed all) (D.meaning disk.old)
        → OnOk result (IsOnly (laid_down limit framed all) (D.meaning disk.new)) }
    ensures any_moment { (all : Areas) → IsOnly all (D.meaning disk.old) → LeavesSince (On A (Torn 0 1) all) (D.meaning disk.old) (D.meaning disk.new) }
    ensures time { Passes (D.meaning disk.old) (D.meaning disk.new) }
    ensures cause { HasCause (D.faults disk.old) (D.faults disk.new) result }
{
    write_synced(disk, Area::A, 0, &[OPEN])
}

/// Fills area A, which is selected and empty.
fn fill_a<D: Disk>(disk: &mut D, limit: u32, framed: &[u8]) -> Result<(), Failed>
    requires empty { D.told → (D.meaning disk.old).reads.a ≡ [] }
    ensures done { D.told → (all : Areas) → IsOnly (a_selected all) (D.meaning disk.old)
        → OnOk result (IsOnly (laid_down limit framed.now all) (D.meaning disk.new)) }
    ensures any_moment { D.told → (all : Areas) → IsOnly (a_selected all) (D.meaning disk.old)
        → LeavesSince (IsOnTheWay limit framed.now all) (D.meaning disk.old) (D.meaning disk.new) }
    ensures time { Passes (D.meaning disk.old) (D.meaning disk.new) }
    ensures cause { HasCause (D.faults disk.old) (D.faults disk.new) result }
{
    shut_a(disk)?;
    write_rest(disk, limit, framed)?;
    open_a(disk)
}

/// Makes area A the selected one, with one frame, from all synced on.
pub(crate) fn lay_down<D: Disk>(disk: &mut D, limit: u32, framed: &[u8]) -> Result<(), Failed>
    ensures done { D.told → (all : Areas) → IsOnly all (D.meaning disk.old)
        → OnOk result (IsOnly (laid_down limit framed.now all) (D.meaning disk.new)) }
    ensures any_moment { D.told → (all : Areas) → IsOnly all (D.meaning disk.old)
        → LeavesSince (IsOnTheWay limit framed.now all) (D.meaning disk.old) (D.meaning disk.new) }
    ensures time { Passes (D.meaning disk.old) (D.meaning disk.new) }
    ensures cause { HasCause (D.faults disk.old) (D.faults disk.new) result }
{
    cut_a(disk)?;
    select_a(disk)?;
    fill_a(disk, limit, framed)
}
