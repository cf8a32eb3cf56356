//! Room for entries.
ghost use Rattle.std.specs.Prelude.{◌≡◌, ◌+◌, ◌≤◌, ◌<◌, ◌^◌, [], IfOk, length, vec_capacity, vec_len};

use au_base::Memory;
use std::alloc::Global;
use std::marker::Model;

/// Room for so many entries and some more: an empty vector that takes all of them, unless there are
/// none more.
#[derive(Debug, Drop)]
pub struct Room<T> {
    entries: Vec<T>,
    count: usize,
    more: usize,
}

impl<T> Model for Room<T> {
    ghost use Rattle.std.specs.Prelude.{◌≡◌, ◌+◌, ◌≤◌, ◌<◌, [], vec_capacity};
    ghost use Rattle.au_grants.specs.descent.Spared.{Spared};

    ghost Value = { Spared };

    ghost view = { λ r. record { count = r.count; more = r.more } };

    ghost invariant = { λ r. (r.entries.items ≡ []) × (0 < r.more → r.count + r.more ≤ vec_capacity r.entries) };
}

impl<T: Drop> Room<T> {
    /// Room for so many entries and some more. The vector is twice as large as they need, so that
    /// few of many changes move the entries.
    pub fn of(alloc: Global, count: usize, more: usize) -> Result<Room<T>, Memory>
        requires bounded { count + more < 2 ^ 63 }
        ensures { IfOk result (λ room. room ≡ record { count = count; more = more }) }
    {
        if more == 0 {
            return Ok(Room {
                entries: Vec::new(alloc),
                count,
                more,
            });
        }
        let needed = count + more;
        let entries = Vec::with_capacity(alloc, needed + needed)?;
        Ok(Room {
            entries,
            count,
            more,
        })
    }

    /// The entries in a vector that has the room: in their own where that has it, else they are
    /// moved. It takes no memory.
    pub fn holding(self, entries: Vec<T>) -> Vec<T>
        requires { length entries.items ≤ self.count }
        ensures items { result.items ≡ entries.items }
        ensures room { length entries.items + self.more ≤ vec_capacity result }
    {
        let Room {
            entries: roomy,
            count: _,
            more,
        } = self;
        if more <= entries.capacity() - entries.len() {
            return entries;
        }
        moved(roomy, entries)
    }
}

// The entries in the empty vector, which has room for them.
fn moved<T: Drop>(empty: Vec<T>, entries: Vec<T>) -> Vec<T>
    requires empty { empty.items ≡ [] }
    requires room { vec_len entries ≤ vec_capacity empty }
    ensures items { result.items ≡ entries.items }
    ensures capacity { vec_capacity empty ≤ vec_capacity result }
{
    let mut entries = entries;
    let mut all = empty;
    let joined = all.append(&mut entries);
    drop(joined);
    all
}
