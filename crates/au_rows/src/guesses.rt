//! Where tables are looked for by name.
ghost use Rattle.std.specs.Prelude.{◌≡◌, ℕ, ◌+◌, ◌<◌, ◌≤◌, None, OnOk, Some, cond, nat_eq};
ghost use Rattle.indexmap.specs.IndexMap.{get, spare};

use au_base::Memory;
use indexmap::IndexMap;
use std::alloc::Global;

/// Under the number of a table's name the number of the table. Two names may share a number, so
/// whoever asks tests the answer; a name without an answer is no table's.
#[derive(Drop)]
pub struct Guesses {
    numbers: IndexMap<u64, usize>,
}

impl Guesses {
    /// Knows no table.
    pub(crate) fn new(alloc: Global) -> Self {
        Guesses {
            numbers: IndexMap::new(alloc),
        }
    }

    /// Makes room for so many more tables.
    pub(crate) fn reserve(&mut self, more: usize) -> Result<(), Memory>
        ensures ok { OnOk result (more ≤ spare self.new.numbers) }
        ensures numbers { (hash : ℕ) → get nat_eq self.new.numbers hash ≡ get nat_eq self.old.numbers hash }
        ensures room { spare self.old.numbers ≤ spare self.new.numbers }
    {
        self.numbers.reserve(more)?;
        Ok(())
    }

    /// The number that a table with this number of its name may have. `None` only where there is no
    /// such table.
    pub(crate) fn get(&self, name: u64) -> Option<usize>
        ensures { result ≡ get nat_eq self.now.numbers name }
    {
        match self.numbers.get(&name) {
            Some(number) => Some(*number),
            None => None,
        }
    }

    /// Keeps the number of the table whose name has this number. It takes no memory.
    pub(crate) fn insert(&mut self, name: u64, number: usize)
        requires { 0 < spare self.old.numbers }
        ensures numbers { (other : ℕ) → get nat_eq self.new.numbers other ≡ cond (nat_eq name other) (Some number) (get nat_eq self.old.numbers other) }
        ensures room { spare self.old.numbers ≤ spare self.new.numbers + 1 }
    {
        if self.numbers.insert(name, number).is_err() {
            unreachable!();
        }
    }

    /// Forgets the table whose name has this number.
    pub(crate) fn remove(&mut self, name: u64)
        ensures numbers { (other : ℕ) → get nat_eq self.new.numbers other ≡ cond (nat_eq name other) None (get nat_eq self.old.numbers other) }
        ensures room { spare self.old.numbers ≤ spare self.new.numbers }
    {
        let _gone = self.numbers.swap_remove(&name);
    }
}
