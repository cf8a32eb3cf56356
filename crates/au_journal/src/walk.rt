//! One step of a walk over the frames of an area.
ghost use Rattle.std.specs.Prelude.{◌≡◌, ◌≢◌, ◌≤◌, ◌+◌, ◌^◌, ℕ, length, drop, take, IfOk, IfErr, MatchOption, ⊤};
ghost use Rattle.std.specs.Int.{w64, to_be_bytes};
ghost use Rattle.au_io.specs.Areas.{area_of};
ghost use Rattle.au_io.specs.Disk.{Stays};
ghost use Rattle.au_journal.specs.Causes.{WalkCause};
ghost use Rattle.au_journal.specs.Frames.{IsShut};
ghost use Rattle.au_journal.specs.Walk.{BeginsWithFrame, WalkSays};
ghost use Rattle.au_journal.specs.Window.{Shows};

use crate::MountFault;
use crate::gates::OPEN;
use crate::window::Window;
use au_io::{Area, Disk};

/// The bytes before a body: the gate and the length.
pub(crate) const FRAME_HEAD: usize = 9;

/// The length of the body behind the next gate, None where that gate isn't open. The area has that
/// size.
pub(crate) fn length_at<D: Disk>(
    disk: &mut D,
    window: &mut Window,
    area: Area,
    size: u64,
    used: u64,
) -> Result<Option<u64>, MountFault>
    requires short { used ≤ 2 ^ 62 }
    requires shown { D.told → Shows window.old (area_of area (D.meaning disk.old).reads) }
    ensures next { D.told → size ≡ length (area_of area (D.meaning disk.old).reads) → IfOk result (λ found. MatchOption found (IsShut (drop used (area_of area (D.meaning disk.old).reads)))
        (λ n. BeginsWithFrame n (drop used (area_of area (D.meaning disk.old).reads)))) }
    ensures fits { IfOk result (λ found. MatchOption found ⊤ (λ n. used + 9 + n ≤ size)) }
    ensures why { D.told → size ≡ length (area_of area (D.meaning disk.old).reads) → IfErr result (WalkSays (drop used (area_of area (D.meaning disk.old).reads)) area used) }
    ensures never_unformatted { IfErr result (λ why. why ≢ MountFault.Unformatted) }
    ensures shown { D.told → Shows window.new (area_of area (D.meaning disk.new).reads) }
    ensures stays { Stays (D.meaning disk.old) (D.meaning disk.new) }
    ensures cause { WalkCause result (D.faults disk.old) (D.faults disk.new) }
{
    let mut room = [0u8; FRAME_HEAD];
    let count = window.read(disk, area, used, &mut room)?;
    if count == 0 || room[0] != OPEN {
        return Ok(None);
    }
    let n = length_in(&room);
    if count < FRAME_HEAD || n == 0 || n > size.saturating_sub(used).saturating_sub(9) {
        return Err(MountFault::Damaged { area, at: used });
    }
    Ok(Some(n))
}

fn length_in(room: &[u8; FRAME_HEAD]) -> u64
    ensures { to_be_bytes w64 result ≡ drop 1 room.now }
{
    let [_, a, b, c, d, e, f, g, h] = *room;
    u64::from_be_bytes([a, b, c, d, e, f, g, h])
}
