//! Rows by name.
ghost use Rattle.std.specs.Prelude.{◌≡◌, IfOk, IsTrue, map};
ghost use Rattle.std.specs.List.{Contains};
ghost use Rattle.std.specs.Ordering.{nat_cmp};
ghost use Rattle.std.specs.Cmp.Lexicographic.{slice_cmp};
ghost use Rattle.au_txn.specs.Listing.{is_one_name, name_of, names_rise};
ghost use Rattle.au_txn.specs.Rows.{place_of};
ghost use Rattle.au_txn.specs.declared.change.RowChange.{RowChange as Change};
ghost use Rattle.au_txn.specs.declared.row_name.RowName.{RowName as Named};

use crate::RowChange;
use crate::row_name::RowName;
use au_base::{Memory, is_same_table};
use std::alloc::Global;

/// Rows compare as they stand in order. It does nothing, and states the law for its callers.
pub(crate) fn names_compare()
    ensures { (a b : Named) → ⟦<RowName as Ord>⟧.cmp a b ≡ slice_cmp (slice_cmp nat_cmp) (place_of a.table a.row) (place_of b.table b.row) }
{}

/// Whether both are one row.
pub(crate) fn is_same_name(a: &RowName, b: &RowName) -> bool
    ensures { result ≡ is_one_name a.now b.now }
{
    is_same_table(&a.table, &b.table) && a.row.0 == b.row.0
}

/// The rows that the changes name, one for each change.
fn names_of(alloc: Global, changes: &[RowChange]) -> Result<Vec<RowName>, Memory>
    ensures { IfOk result (λ names. names.items ≡ map name_of changes.now) }
{
    let mut names = Vec::new(alloc);
    for change in changes {
        names.push(RowName {
            table: change.table.clone()?,
            row: change.row,
        })?;
    }
    Ok(names)
}

/// The rows that the changes name, by owner, table and number.
pub(crate) fn sorted_names(alloc: Global, changes: &[RowChange]) -> Result<Vec<RowName>, Memory>
    ensures rise { IfOk result (λ names. IsTrue (names_rise names.items)) }
    ensures named { IfOk result (λ names. (change : Change) → Contains changes.now change → Contains names.items (name_of change)) }
    ensures names { IfOk result (λ names. (name : Named) → Contains names.items name → Contains (map name_of changes.now) name) }
{
    let mut names = names_of(alloc, changes)?;
    names_compare();
    names.sort()?;
    Ok(names)
}
