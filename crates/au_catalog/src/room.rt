//! Room for entries.
ghost use Rattle.std.specs.Prelude.{◌≡◌, ◌+◌, ◌≤◌, ◌<◌, [], IsOk, OnOk, IfOk, length, vec_capacity, vec_len};
ghost use Rattle.au_catalog.specs.descent.Editing.{Holds};

use au_base::Memory;

/// Makes room in the empty vector for so many entries and some more, where there are some more. It
/// is twice the room that they need, so that few of many edits move the entries.
pub fn spare<T: Drop>(room: &mut Vec<T>, standing: usize, more: usize) -> Result<(), Memory>
    requires empty { room.old.items ≡ [] }
    ensures empty { room.new.items ≡ [] }
    ensures room { OnOk result (Holds standing more (vec_capacity room.new)) }
{
    if more == 0 {
        return Ok(());
    }
    let Some(needed) = standing.checked_add(more) else {
        return Err(Memory);
    };
    room.reserve(needed.saturating_add(standing))?;
    Ok(())
}

/// The entries in a vector that has room for some more: in their own where that has it, else they
/// are moved into the empty one. It takes no memory.
pub fn holding<T: Drop>(room: Vec<T>, more: usize, entries: Vec<T>) -> Vec<T>
    requires empty { room.items ≡ [] }
    requires room { Holds (length entries.items) more (vec_capacity room) }
    ensures items { result.items ≡ entries.items }
    ensures room { length result.items + more ≤ vec_capacity result }
{
    if more <= entries.capacity() - entries.len() {
        return entries;
    }
    moved(room, entries)
}

// The entries in the empty vector, which has room for them.
fn moved<T: Drop>(empty: Vec<T>, entries: Vec<T>) -> Vec<T>
    requires empty { empty.items ≡ [] }
    requires room { vec_len entries ≤ vec_capacity empty }
    ensures items { result.items ≡ entries.items }
    ensures capacity { vec_capacity empty ≤ vec_capacity result }
{
    let mut entries = entries;
    let mut all = empty;
    let joined = all.append(&mut entries);
    drop(joined);
    all
}

/// The value, where what was done for it was done.
pub fn if_done<T: Drop>(done: Result<(), Memory>, value: T) -> Result<T, Memory>
    ensures done { OnOk result (IsOk done) }
    ensures value { IfOk result (λ kept. kept ≡ value) }
{
    done?;
    Ok(value)
}
