//! A window over the bytes of an area, so that a walk makes few calls of the disk.
ghost use Rattle.std.specs.Prelude.{◌≤◌, length};

use au_io::{Area, Disk, Failed};

/// How many bytes a window holds at most: some 16 small frames, and little to move with a journal.
const WINDOW_BYTES: usize = 2_048;

/// Bytes of an area, as they were when it was last filled. Contracts see its fields.
#[derive(Drop)]
pub(crate) struct Window {
    bytes: [u8; WINDOW_BYTES],
    /// Where in the area the first of them stands.
    place: u64,
    /// How many of them are held.
    filled: usize,
    ghost inside: { filled ≤ length bytes },
}

impl Window {
    ghost use Rattle.std.specs.Prelude.{◌≡◌, ◌<◌, ◌+◌, ◌-◌, ◌^◌, ◌++◌, [], ℕ, List, take, drop, min, IfOk, OnOk};
    ghost use Rattle.au_io.specs.Areas.{area_of};
    ghost use Rattle.au_io.specs.Disk.{Stays, HasCause};
    ghost use Rattle.au_journal.specs.Window.{Shows, held_of};

    /// A window that holds nothing.
    pub(crate) fn new() -> Window
        ensures shown { (area : List ℕ) → Shows result area }
    {
        Window {
            bytes: [0; WINDOW_BYTES],
            place: 0,
            filled: 0,
        }
    }

    /// Lets go of what it holds, so that the area may be written.
    pub(crate) fn clear(&mut self)
        ensures shown { (area : List ℕ) → Shows self.new area }
    {
        self.filled = 0;
    }

    /// Reads as the disk does, out of the window as far as it reaches, and else by one call of the disk.
    pub(crate) fn read<D: Disk>(
        &mut self,
        disk: &mut D,
        area: Area,
        at: u64,
        room: &mut [u8],
    ) -> Result<usize, Failed>
        requires short { at ≤ 2 ^ 63 }
        requires shown { D.told → Shows self.old (area_of area (D.meaning disk.old).reads) }
        ensures count { IfOk result (λ n. n ≤ length room.old) }
        ensures all { D.told → IfOk result (λ n. n ≡ min (length room.old) (length (area_of area (D.meaning disk.old).reads) - at)) }
        ensures bytes { D.told → IfOk result (λ n. room.new ≡ take n (drop at (area_of area (D.meaning disk.old).reads)) ++ drop n room.old) }
        ensures shown { D.told → Shows self.new (area_of area (D.meaning disk.new).reads) }
        ensures stays { Stays (D.meaning disk.old) (D.meaning disk.new) }
        ensures cause { HasCause (D.faults disk.old) (D.faults disk.new) result }
    {
        let held = self.copy_to(at, room);
        if held == room.len() {
            return Ok(held);
        }
        let more = self.read_on(disk, area, at + held as u64, &mut room[held..])?;
        Ok(held + more)
    }

    /// Reads by one call of the disk: into a room that is longer than the window, else through it.
    fn read_on<D: Disk>(
        &mut self,
        disk: &mut D,
        area: Area,
        at: u64,
        room: &mut [u8],
    ) -> Result<usize, Failed>
        requires shown { D.told → Shows self.old (area_of area (D.meaning disk.old).reads) }
        ensures count { IfOk result (λ n. n ≤ length room.old) }
        ensures all { D.told → IfOk result (λ n. n ≡ min (length room.old) (length (area_of area (D.meaning disk.old).reads) - at)) }
        ensures bytes { D.told → IfOk result (λ n. room.new ≡ take n (drop at (area_of area (D.meaning disk.old).reads)) ++ drop n room.old) }
        ensures shown { D.told → Shows self.new (area_of area (D.meaning disk.new).reads) }
        ensures stays { Stays (D.meaning disk.old) (D.meaning disk.new) }
        ensures cause { HasCause (D.faults disk.old) (D.faults disk.new) result }
    {
        if room.len() > self.bytes.len() {
            return disk.read(area, at, room);
        }
        self.fill(disk, area, at)?;
        Ok(self.copy_to(at, room))
    }

    /// Holds the bytes from that place on, as many as it has room for. It holds nothing after an error.
    fn fill<D: Disk>(&mut self, disk: &mut D, area: Area, at: u64) -> Result<(), Failed>
        ensures placed { OnOk result (self.new.place ≡ at) }
        ensures filled { D.told → OnOk result (self.new.filled ≡ min (length self.old.bytes) (length (area_of area (D.meaning disk.old).reads) - at)) }
        ensures shown { D.told → Shows self.new (area_of area (D.meaning disk.old).reads) }
        ensures stays { Stays (D.meaning disk.old) (D.meaning disk.new) }
        ensures cause { HasCause (D.faults disk.old) (D.faults disk.new) result }
    {
        self.filled = 0;
        self.filled = disk.read(area, at, &mut self.bytes)?;
        self.place = at;
        Ok(())
    }

    /// Copies what it holds from that place on into the room. How many bytes it was.
    fn copy_to(&self, at: u64, room: &mut [u8]) -> usize
        ensures count { result ≤ length room.old }
        ensures all { self.now.place ≡ at → result ≡ min (length room.old) self.now.filled }
        ensures bytes { (area : List ℕ) → Shows self.now area → room.new ≡ take result (drop at area) ++ drop result room.old }
    {
        let held = self.held_from(at);
        let count = held.len().min(room.len());
        room[..count].copy_from_slice(&held[..count]);
        count
    }

    /// The bytes that it holds from that place on.
    fn held_from(&self, at: u64) -> &[u8]
        ensures from { self.now.place ≤ at → result.now ≡ drop (at - self.now.place) (held_of self.now) }
        ensures before { at < self.now.place → result.now ≡ [] }
    {
        let held = &self.bytes[..self.filled];
        match at.checked_sub(self.place) {
            Some(skip) if skip < held.len() as u64 => &held[skip as usize..],
            _ => &[],
        }
    }
}
