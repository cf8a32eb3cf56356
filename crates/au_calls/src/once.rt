//! Sets of names, in the order in which they are first written.
ghost use Rattle.std.specs.Prelude.{◌≡◌, ◌++◌, ◌∷◌, [], if◌then◌else◌, IfOk, OnOk};
ghost use Rattle.std.specs.List.{list_any};
ghost use Rattle.std.specs.Str.{bytes_eq};
ghost use Rattle.au_calls.specs.Once.{once};

use au_base::{List, Memory, Name};
use indexmap::IndexSet;
use std::alloc::Global;

/// The names as they are first written, each once.
pub fn names_once(alloc: Global, names: &[Name]) -> Result<List<Name>, Memory>
    ensures { IfOk result (λ kept. kept ≡ once bytes_eq names.now) }
{
    let kept = set_of(alloc, names)?;
    Ok(List::from_vec(kept.as_slice().to_vec(alloc)?))
}

fn set_of(alloc: Global, names: &[Name]) -> Result<IndexSet<Name>, Memory>
    ensures { IfOk result (λ kept. kept.keys ≡ once bytes_eq names.now) }
{
    let mut kept = IndexSet::new(alloc);
    for name in names {
        push_once(&mut kept, name)?;
    }
    Ok(kept)
}

// Adds the name where it isn't there.
fn push_once(kept: &mut IndexSet<Name>, name: &Name) -> Result<(), Memory>
    ensures { OnOk result (kept.new.keys ≡ (if list_any (bytes_eq name.now) kept.old.keys then kept.old.keys else kept.old.keys ++ name.now ∷ [])) }
{
    kept.insert(name.clone()?)?;
    Ok(())
}
