//! The order of records.
ghost use Rattle.std.specs.Prelude.{◌≡◌, IsTrue};
ghost use Rattle.au_audit.specs.Firing.{in_record_order, record_before, record_fields};
ghost use Rattle.au_base.specs.Order.{is_in_order};
ghost use Rattle.au_entries.specs.Changing.{by_fields};

use au_entries::FgaName;
use std::cmp::Ordering;

/// Puts the names into the order of their records. They are such that none stands there twice.
pub fn put_in_order(names: &mut Vec<FgaName>)
    requires order { IsTrue (is_in_order record_before (in_record_order names.old.items)) }
    ensures { names.new.items ≡ in_record_order names.old.items }
{
    names.sort_unstable_by(|a, b| compare(a, b));
}

fn compare(name: &FgaName, other: &FgaName) -> Ordering
    ensures { result ≡ by_fields (record_fields name.now) (record_fields other.now) }
{
    name.policy
        .cmp(&other.policy)
        .then(name.table.owner.cmp(&other.table.owner))
        .then(name.table.name.cmp(&other.table.name))
}
