//! Purges.
ghost use Rattle.std.specs.Prelude.{◌≡◌};
ghost use Rattle.std.specs.List.{filter};
ghost use Rattle.au_entries.specs.Frames.{is_from, purged};

use au_base::Stamp;
use au_entries::Record;

/// Removes the records that are stamped before the moment, and all of them where none is named. The
/// others keep their order. It takes no memory, and goes over the trail once.
pub fn purge(trail: &mut Vec<Record>, before: Option<Stamp>)
    ensures { trail.new.items ≡ purged before trail.old.items }
{
    match before {
        None => trail.clear(),
        Some(moment) => keep_from(trail, moment),
    }
}

// Keeps the records that are stamped at the moment or later.
fn keep_from(trail: &mut Vec<Record>, moment: Stamp)
    ensures { trail.new.items ≡ filter (is_from moment) trail.old.items }
{
    trail.retain(|entry| moment.0 <= entry.stamp.0);
}
