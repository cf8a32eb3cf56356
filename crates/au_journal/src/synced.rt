//! A write that is synced.
ghost use Rattle.std.specs.Prelude.{◌≡◌, ◌≤◌, ◌+◌, ◌^◌, length, OnOk};
ghost use Rattle.au_io.specs.Areas.{area_of, with_area, overwritten, On, Torn};
ghost use Rattle.au_io.specs.Disk.{Passes, Follows, HasCause};
ghost use Rattle.au_io.specs.declared.disk.Area.TheVariants as area;
ghost use Rattle.au_journal.specs.Images.{IsSafe, letter_of};
ghost use Rattle.au_journal.specs.Seats.{with_letter};

use au_io::{Area, Disk, Failed};

/// The letter that selects area A.
const LETTER_A: u8 = 0x41;

/// The letter that selects area B.
pub(crate) const LETTER_B: u8 = 0x42;

/// Writes at that place of the area, and syncs it.
pub(crate) fn write_synced<D: Disk>(
    disk: &mut D,
    area: Area,
    at: u64,
    bytes: &[u8],
) -> Result<(), Failed>
    requires within { D.told → at ≤ length (area_of area (D.meaning disk.old).reads) }
    ensures reads { D.told → OnOk result ((D.meaning disk.new).reads
        ≡ with_area area (overwritten (area_of area (D.meaning disk.old).reads) at bytes.now) (D.meaning disk.old).reads) }
    ensures safe { OnOk result (IsSafe area (D.meaning disk.new)) }
    ensures bounded { OnOk result (at + length bytes.now ≤ 2 ^ 62) }
    ensures crash { Follows (On area (Torn at (length bytes.now))) (D.meaning disk.old) (D.meaning disk.new) }
    ensures time { Passes (D.meaning disk.old) (D.meaning disk.new) }
    ensures cost { (D.meaning disk.new).written ≤ (D.meaning disk.old).written + length bytes.now }
    ensures cause { HasCause (D.faults disk.old) (D.faults disk.new) result }
{
    disk.write_at(area, at, bytes)?;
    disk.sync(area)
}

/// Selects the area by its letter in Head, and syncs Head.
pub(crate) fn select<D: Disk>(disk: &mut D, selected: Area) -> Result<(), Failed>
    ensures reads { D.told → OnOk result ((D.meaning disk.new).reads ≡ with_letter selected (D.meaning disk.old).reads) }
    ensures safe { OnOk result (IsSafe area.Head (D.meaning disk.new)) }
    ensures crash { Follows (On area.Head (Torn 0 1)) (D.meaning disk.old) (D.meaning disk.new) }
    ensures time { Passes (D.meaning disk.old) (D.meaning disk.new) }
    ensures cost { (D.meaning disk.new).written ≤ (D.meaning disk.old).written + 1 }
    ensures cause { HasCause (D.faults disk.old) (D.faults disk.new) result }
{
    write_synced(disk, Area::Head, 0, &[letter(selected)])
}

fn letter(selected: Area) -> u8
    ensures { result ≡ letter_of selected }
{
    match selected {
        Area::B => LETTER_B,
        Area::A | Area::Head => LETTER_A,
    }
}
