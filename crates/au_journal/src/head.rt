//! Which area is selected, and how an area begins.
ghost use Rattle.std.specs.Prelude.{◌≡◌, ◌↔◌, true, false, ◌++◌, take, drop, OnOk, IfOk, IfErr, MatchOption, ⊤};
ghost use Rattle.std.specs.Int.{w32, to_be_bytes};
ghost use Rattle.au_io.specs.Areas.{area_of};
ghost use Rattle.au_io.specs.Disk.{Stays, HasCause};
ghost use Rattle.au_journal.specs.Creation.{IsSelectedFormatted};
ghost use Rattle.au_journal.specs.Frames.{header, IsLimit, IsOpen};
ghost use Rattle.au_journal.specs.Images.{Selects};
ghost use Rattle.au_journal.specs.Walk.{IsFormatted, IsNamed, HeadDamage, IsStill, IsUnformatted};

use crate::gates::OPEN;
use crate::synced::LETTER_B;
use au_base::limits::{JOURNAL_LIMIT_MAX, JOURNAL_LIMIT_MIN};
use au_io::{Area, Disk, Failed};

/// The length of an area's head: its gate, the name of the format, the limit and the first gate.
pub(crate) const HEAD_BYTES: usize = 14;

/// Syncs the three areas.
pub(crate) fn sync_all<D: Disk>(disk: &mut D) -> Result<(), Failed>
    ensures still { OnOk result (IsStill (D.meaning disk.new)) }
    ensures stays { Stays (D.meaning disk.old) (D.meaning disk.new) }
    ensures cause { HasCause (D.faults disk.old) (D.faults disk.new) result }
{
    disk.sync(Area::Head)?;
    disk.sync(Area::A)?;
    disk.sync(Area::B)
}

/// The area that the byte of Head selects.
pub(crate) fn selected<D: Disk>(disk: &mut D) -> Result<Area, Failed>
    ensures selects { D.told → IfOk result (λ area. Selects area (D.meaning disk.old).reads.head) }
    ensures stays { Stays (D.meaning disk.old) (D.meaning disk.new) }
    ensures cause { HasCause (D.faults disk.old) (D.faults disk.new) result }
{
    let mut room = [0u8; 1];
    let count = disk.read(Area::Head, 0, &mut room)?;
    if count == 1 && room[0] == LETTER_B {
        Ok(Area::B)
    } else {
        Ok(Area::A)
    }
}

/// The head of an area, None where the area isn't formatted.
pub(crate) fn read_head<D: Disk>(
    disk: &mut D,
    area: Area,
) -> Result<Option<[u8; HEAD_BYTES]>, Failed>
    ensures head { D.told → IfOk result (λ found. MatchOption found (IsFormatted (area_of area (D.meaning disk.old).reads) → ⊥)
        (λ head. IsFormatted (area_of area (D.meaning disk.old).reads) × (head ≡ take 14 (area_of area (D.meaning disk.old).reads)))) }
    ensures opens { IfOk result (λ found. MatchOption found ⊤ IsOpen) }
    ensures stays { Stays (D.meaning disk.old) (D.meaning disk.new) }
    ensures cause { HasCause (D.faults disk.old) (D.faults disk.new) result }
{
    let mut room = [0u8; HEAD_BYTES];
    let count = disk.read(area, 0, &mut room)?;
    if count == HEAD_BYTES && room[0] == OPEN {
        Ok(Some(room))
    } else {
        Ok(None)
    }
}

/// Whether the selected area is formatted, after a sync of the three areas.
pub(crate) fn is_formatted<D: Disk>(disk: &mut D) -> Result<bool, Failed>
    ensures yes { D.told → IfOk result (λ is. is ≡ true → IsSelectedFormatted (D.meaning disk.old).reads) }
    ensures not { D.told → IfOk result (λ is. is ≡ false → IsUnformatted (D.meaning disk.old).reads) }
    ensures still { OnOk result (IsStill (D.meaning disk.new)) }
    ensures stays { Stays (D.meaning disk.old) (D.meaning disk.new) }
    ensures cause { HasCause (D.faults disk.old) (D.faults disk.new) result }
{
    sync_all(disk)?;
    let area = selected(disk)?;
    match read_head(disk, area)? {
        Some(_) => Ok(true),
        None => Ok(false),
    }
}

/// The limit that stands in a head, or the place of its first damage.
pub(crate) fn limit_of(head: &[u8; HEAD_BYTES]) -> Result<u32, u64>
    requires { IsOpen head.now }
    ensures limit { IfOk result IsLimit }
    ensures header { IfOk result (λ limit. head.now ≡ header limit ++ drop 13 head.now) }
    ensures opens { OnOk result (IsOpen (drop 13 head.now)) }
    ensures damage { IfErr result (HeadDamage head.now) }
{
    if !is_named(head) {
        return Err(1);
    }
    let limit = limit_in(head);
    if limit < JOURNAL_LIMIT_MIN || limit > JOURNAL_LIMIT_MAX {
        return Err(9);
    }
    if head[13] != OPEN {
        return Err(13);
    }
    Ok(limit)
}

fn is_named(head: &[u8; HEAD_BYTES]) -> bool
    ensures { result ≡ true ↔ IsNamed head.now }
{
    let [_, a, b, c, d, e, f, g, h, _, _, _, _, _] = *head;
    [a, b, c, d, e, f, g, h] == *b"AUJRNL01"
}

fn limit_in(head: &[u8; HEAD_BYTES]) -> u32
    ensures { to_be_bytes w32 result ≡ take 4 (drop 9 head.now) }
{
    let [_, _, _, _, _, _, _, _, _, a, b, c, d, _] = *head;
    u32::from_be_bytes([a, b, c, d])
}
