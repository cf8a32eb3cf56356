//! What stands in lists of the catalogue, found by halving.
ghost use Rattle.std.specs.Prelude.{◌≡◌, ◌∷◌, [], IsTrue, map};
ghost use Rattle.std.specs.List.{list_any};
ghost use Rattle.std.specs.Str.{bytes_eq};
ghost use Rattle.au_base.specs.Order.{fields_before, is_in_order, name_before};
ghost use Rattle.au_base.specs.Sameness.{same_table};
ghost use Rattle.au_entries.specs.Changing.{table_fields};
ghost use Rattle.au_define.specs.descent.Places.{IsPlaceOf};

use au_base::{Name, TableName, is_same_table};
use au_entries::Table;

/// What has a name, in whose byte order it stands in its list.
pub trait Named {
    ghost use Rattle.std.specs.Prelude.{List as Sequence, ℕ};

    ghost name_of: { Self → Sequence ℕ };

    /// Its name.
    fn name(&self) -> &Name
        ensures { result.now ≡ name_of self.now };
}

impl Named for (Name, [u8; 32]) {
    ghost name_of = { λ user. user.0 };

    fn name(&self) -> &Name {
        &self.0
    }
}

impl Named for Name {
    ghost name_of = { λ name. name };

    fn name(&self) -> &Name {
        self
    }
}

/// Whether an entry has the name.
pub fn has_named<T: Named>(entries: &[T], name: &str) -> bool
    requires order { IsTrue (is_in_order name_before (map T.name_of entries.now)) }
    ensures { result ≡ list_any (λ entry. bytes_eq (T.name_of entry) name.now) entries.now }
{
    let place = name_place(entries, name);
    place < entries.len() && entries[place].name().as_str() == name
}

fn name_place<T: Named>(entries: &[T], name: &str) -> usize
    requires order { IsTrue (is_in_order name_before (map T.name_of entries.now)) }
    ensures { IsPlaceOf (λ entry. T.name_of entry ∷ []) (name.now ∷ []) entries.now result }
{
    entries.partition_point(|entry| is_named_before(entry, name))
}

fn is_named_before<T: Named>(entry: &T, name: &str) -> bool
    ensures { result ≡ fields_before (T.name_of entry.now ∷ []) (name.now ∷ []) }
{
    entry.name().as_str().cmp(name).is_lt()
}

/// Whether a table has the name.
pub fn has_table(tables: &[Table], name: &TableName) -> bool
    requires order { IsTrue (is_in_order fields_before (map (λ table. table_fields table.name) tables.now)) }
    ensures { result ≡ list_any (λ table. same_table table.name name.now) tables.now }
{
    let place = table_place(tables, name);
    place < tables.len() && is_same_table(&tables[place].name, name)
}

fn table_place(tables: &[Table], name: &TableName) -> usize
    requires order { IsTrue (is_in_order fields_before (map (λ table. table_fields table.name) tables.now)) }
    ensures { IsPlaceOf (λ table. table_fields table.name) (table_fields name.now) tables.now result }
{
    tables.partition_point(|table| is_table_before(table, name))
}

fn is_table_before(table: &Table, name: &TableName) -> bool
    ensures { result ≡ fields_before (table_fields table.now.name) (table_fields name.now) }
{
    table
        .name
        .owner
        .cmp(&name.owner)
        .then(table.name.name.cmp(&name.name))
        .is_lt()
}

/// Whether the user owns a table.
pub fn owns_table(tables: &[Table], user: &Name) -> bool
    requires order { IsTrue (is_in_order fields_before (map (λ table. table_fields table.name) tables.now)) }
    ensures { result ≡ list_any (λ table. bytes_eq table.name.owner user.now) tables.now }
{
    let place = owner_place(tables, user);
    place < tables.len() && tables[place].name.owner == *user
}

fn owner_place(tables: &[Table], user: &Name) -> usize
    requires order { IsTrue (is_in_order fields_before (map (λ table. table_fields table.name) tables.now)) }
    ensures { IsPlaceOf (λ table. table_fields table.name) (user.now ∷ []) tables.now result }
{
    tables.partition_point(|table| is_owner_before(table, user))
}

fn is_owner_before(table: &Table, user: &Name) -> bool
    ensures { result ≡ fields_before (table_fields table.now.name) (user.now ∷ []) }
{
    table.name.owner < *user
}
