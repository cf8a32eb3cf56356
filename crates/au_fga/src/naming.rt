//! Types of statements, and the columns that they reference.
ghost use Rattle.std.specs.Prelude.{◌≡◌, ◌&&◌};
ghost use Rattle.std.specs.List.{list_all, list_any};
ghost use Rattle.std.specs.Str.{bytes_eq};
ghost use Rattle.au_audit.specs.Firing.{are_referenced, is_referenced, names_type, of_table};
ghost use Rattle.au_base.specs.Sameness.{same_table};

use au_base::{Action, List, Name, TableName, is_same_table};
use au_entries::FgaPolicy;

/// Whether the number names the kind of statement.
pub fn names_type(types: u8, action: Action) -> bool
    ensures { result ≡ names_type types action }
{
    match action {
        Action::Select => types % 2 == 1,
        Action::Insert => types / 2 % 2 == 1,
        Action::Update => types / 4 % 2 == 1,
        Action::Delete => types / 8 % 2 == 1,
        _ => false,
    }
}

/// Whether the policy's relevant columns are referenced: any statement does where there are none;
/// else it has to reference one of them, or all.
pub fn are_referenced(policy: &FgaPolicy, named: &[(TableName, List<Name>)]) -> bool
    ensures { result ≡ are_referenced policy.now.columns policy.now.all (of_table policy.now.name.table named.now) }
{
    let columns = policy.columns.as_slice();
    if columns.is_empty() {
        return true;
    }
    if policy.all {
        all_are(columns, &policy.name.table, named)
    } else {
        one_is(columns, &policy.name.table, named)
    }
}

fn all_are(columns: &[Name], table: &TableName, named: &[(TableName, List<Name>)]) -> bool
    ensures { result ≡ list_all (is_referenced (of_table table.now named.now)) columns.now }
{
    columns
        .iter()
        .all(|column| is_referenced(named, table, column))
}

fn one_is(columns: &[Name], table: &TableName, named: &[(TableName, List<Name>)]) -> bool
    ensures { result ≡ list_any (is_referenced (of_table table.now named.now)) columns.now }
{
    columns
        .iter()
        .any(|column| is_referenced(named, table, column))
}

// Whether the column of the table is referenced.
fn is_referenced(named: &[(TableName, List<Name>)], table: &TableName, column: &Name) -> bool
    ensures { result ≡ is_referenced (of_table table.now named.now) column.now }
{
    is_named(named, table, column)
}

fn is_named(named: &[(TableName, List<Name>)], table: &TableName, column: &Name) -> bool
    ensures { result ≡ list_any (λ entry. same_table entry.0 table.now && list_any (bytes_eq column.now) entry.1) named.now }
{
    named.iter().any(|entry| names_column(entry, table, column))
}

fn names_column(entry: &(TableName, List<Name>), table: &TableName, column: &Name) -> bool
    ensures { result ≡ (same_table entry.now.0 table.now && list_any (bytes_eq column.now) entry.now.1) }
{
    is_same_table(&entry.0, table) && has_name(entry.1.as_slice(), column)
}

fn has_name(names: &[Name], name: &Name) -> bool
    ensures { result ≡ list_any (bytes_eq name.now) names.now }
{
    names.iter().any(|other| *name == *other)
}
