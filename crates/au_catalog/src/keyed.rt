//! What stands in a list in the byte order of its key.
ghost use Rattle.std.specs.Prelude.{◌≡◌, List, ℕ};
ghost use Rattle.std.specs.Cmp.{IsTotalOrder};
ghost use Rattle.std.specs.declared.cmp.Ordering.{Ordering as Order};
ghost use Rattle.au_entries.specs.Changing.{by_fields, by_name, fga_fields, table_fields};
ghost use Rattle.au_catalog.specs.descent.Keys.{fields_total, names_total};

use au_base::{Name, TableName};
use au_entries::{AuditPolicy, Enabled, FgaPolicy, Table};
use std::cmp::Ordering;

/// What has a key, in whose order it stands in its list.
pub trait Keyed: Drop {
    ghost Key: { Type 0 };

    ghost key: { Self → Key };

    ghost by: { Key → Key → Order };

    ghost total: { IsTotalOrder by };

    /// How its key stands to the other's.
    fn compare(&self, other: &Self) -> Ordering
        ensures { result ≡ by (key self.now) (key other.now) };
}

/// Users, by their names.
impl Keyed for (Name, [u8; 32]) {
    ghost Key = { List ℕ };

    ghost key = { λ user. user.0 };

    ghost by = { by_name };

    ghost total = { names_total };

    fn compare(&self, other: &Self) -> Ordering {
        self.0.cmp(&other.0)
    }
}

/// Roles, by their names.
impl Keyed for Name {
    ghost Key = { List ℕ };

    ghost key = { λ role. role };

    ghost by = { by_name };

    ghost total = { names_total };

    fn compare(&self, other: &Self) -> Ordering {
        self.cmp(other)
    }
}

/// Tables, by their owners and names.
impl Keyed for Table {
    ghost Key = { List (List ℕ) };

    ghost key = { λ table. table_fields table.name };

    ghost by = { by_fields };

    ghost total = { fields_total };

    fn compare(&self, other: &Self) -> Ordering {
        compare_tables(&self.name, &other.name)
    }
}

/// Audit policies, by their names.
impl Keyed for AuditPolicy {
    ghost Key = { List ℕ };

    ghost key = { λ policy. policy.name };

    ghost by = { by_name };

    ghost total = { names_total };

    fn compare(&self, other: &Self) -> Ordering {
        self.name.cmp(&other.name)
    }
}

/// Enablements, by the names of their policies.
impl Keyed for (Name, Enabled) {
    ghost Key = { List ℕ };

    ghost key = { λ entry. entry.0 };

    ghost by = { by_name };

    ghost total = { names_total };

    fn compare(&self, other: &Self) -> Ordering {
        self.0.cmp(&other.0)
    }
}

/// Fine-grained policies, by the owners and names of their tables, then by their own names.
impl Keyed for FgaPolicy {
    ghost Key = { List (List ℕ) };

    ghost key = { λ policy. fga_fields policy.name.table policy.name.policy };

    ghost by = { by_fields };

    ghost total = { fields_total };

    fn compare(&self, other: &Self) -> Ordering {
        compare_policies(self, other)
    }
}

fn compare_tables(table: &TableName, other: &TableName) -> Ordering
    ensures { result ≡ by_fields (table_fields table.now) (table_fields other.now) }
{
    table
        .owner
        .cmp(&other.owner)
        .then(table.name.cmp(&other.name))
}

fn compare_policies(policy: &FgaPolicy, other: &FgaPolicy) -> Ordering
    ensures { result ≡ by_fields (fga_fields policy.now.name.table policy.now.name.policy) (fga_fields other.now.name.table other.now.name.policy) }
{
    policy
        .name
        .table
        .owner
        .cmp(&other.name.table.owner)
        .then(policy.name.table.name.cmp(&other.name.table.name))
        .then(policy.name.policy.cmp(&other.name.policy))
}
