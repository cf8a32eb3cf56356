//! How many places each table has.
ghost use Rattle.std.specs.Prelude.{◌≡◌, ◌+◌, ◌-◌, ◌<◌, ◌≤◌, ◌^◌, ℕ, OnOk, length, max, slice_index_or, slice_set};

use au_base::Memory;

/// The table's count, 0 where none is kept.
pub(crate) fn count_of(counts: &[u32], table: usize) -> u32
    ensures { result ≡ slice_index_or counts.now table 0 }
{
    match counts.get(table) {
        Some(count) => *count,
        None => 0,
    }
}

/// Counts one place more of a table.
pub(crate) fn count_more(counts: &mut Vec<u32>, table: usize)
    requires counted { table < length counts.old.items }
    requires most { slice_index_or counts.old.items table 0 + 1 < 2 ^ 32 }
    ensures { counts.new.items ≡ slice_set counts.old.items table (slice_index_or counts.old.items table 0 + 1) }
{
    counts[table] = count_of(counts, table) + 1;
}

/// Counts one place less of a table.
pub(crate) fn count_less(counts: &mut Vec<u32>, table: usize)
    ensures { counts.new.items ≡ slice_set counts.old.items table (slice_index_or counts.old.items table 0 - 1) }
{
    if table < counts.len() {
        counts[table] = count_of(counts, table).saturating_sub(1);
    }
}

/// Counts no place of a table.
pub(crate) fn count_none(counts: &mut Vec<u32>, table: usize)
    ensures { counts.new.items ≡ slice_set counts.old.items table 0 }
{
    if table < counts.len() {
        counts[table] = 0;
    }
}

/// Keeps counts of so many tables, and none of those that are new.
pub(crate) fn count_to(counts: &mut Vec<u32>, tables: usize) -> Result<(), Memory>
    ensures ok { OnOk result (tables ≤ length counts.new.items) }
    ensures same { (table : ℕ) → slice_index_or counts.new.items table 0 ≡ slice_index_or counts.old.items table 0 }
    ensures more { length counts.old.items ≤ length counts.new.items }
    ensures most { length counts.new.items ≤ max tables (length counts.old.items) }
{
    while counts.len() < tables {
        counts.push(0)?;
    }
    Ok(())
}
