//! Sets of names, in the order in which they are first written.
ghost use Rattle.std.specs.Prelude.{◌≡◌, ◌++◌, ◌∷◌, ◌||◌, [], List, ℕ, if◌then◌else◌, IfOk, OnOk};
ghost use Rattle.std.specs.Str.{bytes_eq};
ghost use Rattle.au_entries.specs.Enabling.{each_once, is_among, is_listed};

use au_base::{Memory, Name};
use au_entries::Outcomes;
use indexmap::IndexSet;
use std::alloc::Global;

/// Whether the name is among these.
pub fn is_among(names: &IndexSet<Name>, name: &Name) -> bool
    ensures { result ≡ is_among names.now.keys name.now }
{
    names.contains(name)
}

/// The names as they are first written, each once.
pub fn each_once(alloc: Global, names: &[Name]) -> Result<IndexSet<Name>, Memory>
    ensures { IfOk result (λ once. once.keys ≡ each_once names.now) }
{
    let mut once = IndexSet::new(alloc);
    for name in names {
        push_once(&mut once, name)?;
    }
    Ok(once)
}

/// The names of the listed users.
pub fn listed_names(alloc: Global, listed: &[(Name, Outcomes)]) -> Result<IndexSet<Name>, Memory>
    ensures { IfOk result (λ names. (user : List ℕ) → is_among names.keys user ≡ is_listed listed.now user) }
{
    let mut names = IndexSet::new(alloc);
    for entry in listed {
        push_once(&mut names, &entry.0)?;
    }
    Ok(names)
}

// Adds the name where it isn't there.
fn push_once(once: &mut IndexSet<Name>, name: &Name) -> Result<(), Memory>
    ensures keys { OnOk result (once.new.keys ≡ (if is_among once.old.keys name.now then once.old.keys else once.old.keys ++ name.now ∷ [])) }
    ensures among { OnOk result ((other : List ℕ) → is_among once.new.keys other ≡ (bytes_eq other name.now || is_among once.old.keys other)) }
{
    once.insert(name.clone()?)?;
    Ok(())
}
