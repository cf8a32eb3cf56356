//! The numbers of tables.
ghost use Rattle.std.specs.Prelude.{◌≡◌, ◌≤◌, ◌<◌, ◌+◌, ◌∷◌, [], Some, length, nat_eq, slice_get, vec_len, vec_capacity};
ghost use Rattle.std.specs.List.{position_or_len};
ghost use Rattle.indexmap.specs.IndexMap.{get, spare};
ghost use Rattle.au_rows.specs.Edits.{edited};
ghost use Rattle.au_rows.specs.Held.{is_vacant, key_of, number_of};
ghost use Rattle.au_rows.specs.Kept.{AreApart, AreKnown, has_number};

use crate::guesses::Guesses;
use crate::hash::name_hash;
use crate::table::{Table, is_named};
use au_base::TableName;

/// The number of the table with this name, by a walk over the tables.
fn walked_number(tables: &[Option<Table>], name: &TableName) -> usize
    ensures number { result ≡ number_of name.now tables.now }
    ensures within { result ≤ length tables.now }
{
    for number in 0..tables.len() {
        if is_named(&tables[number], name) {
            return number;
        }
    }
    tables.len()
}

/// The number of the table with this name, where it is `number`, and otherwise by a walk.
fn guessed_number(tables: &[Option<Table>], number: usize, name: &TableName) -> usize
    requires { AreApart tables.now }
    ensures number { result ≡ number_of name.now tables.now }
    ensures within { result ≤ length tables.now }
{
    if number < tables.len() && is_named(&tables[number], name) {
        number
    } else {
        walked_number(tables, name)
    }
}

/// The number of the table with this name: its place among the tables, or how many places there
/// are where it isn't there. All tables are asked only for a name that shares the number of another
/// one.
pub(crate) fn number_of(tables: &[Option<Table>], guesses: &Guesses, name: &TableName) -> usize
    requires apart { AreApart tables.now }
    requires known { AreKnown tables.now (λ hash. get nat_eq guesses.now.numbers hash) }
    ensures number { result ≡ number_of name.now tables.now }
    ensures within { result ≤ length tables.now }
{
    match guesses.get(name_hash(name)) {
        Some(number) => guessed_number(tables, number, name),
        None => tables.len(),
    }
}

fn has_number(table: &Option<Table>, hash: u64) -> bool
    ensures { result ≡ has_number hash table.now }
{
    match table {
        Some(table) => name_hash(&table.name) == hash,
        None => false,
    }
}

/// Forgets a table that is gone, unless the name of another one has the same number.
pub(crate) fn forget_name(tables: &[Option<Table>], guesses: &mut Guesses, name: &TableName)
    requires known { AreKnown tables.now (λ hash. get nat_eq guesses.old.numbers hash) }
    ensures known { AreKnown tables.now (λ hash. get nat_eq guesses.new.numbers hash) }
    ensures room { spare guesses.old.numbers ≤ spare guesses.new.numbers }
{
    let hash = name_hash(name);
    if !tables.iter().any(|table| has_number(table, hash)) {
        guesses.remove(hash);
    }
}

fn is_vacant(table: &Option<Table>) -> bool
    ensures { result ≡ is_vacant table.now }
{
    table.is_none()
}

/// The first place that no table has, or how many places there are.
fn vacant_number(tables: &[Option<Table>]) -> usize
    ensures number { result ≡ position_or_len is_vacant tables.now }
    ensures within { result ≤ length tables.now }
{
    for number in 0..tables.len() {
        if is_vacant(&tables[number]) {
            return number;
        }
    }
    tables.len()
}

/// Puts a table at the first place that no table has, and answers its number.
#[tactic(auto, using(crate::proofs::TableLemmas::vacant_steps))]
pub(crate) fn add_table(tables: &mut Vec<Option<Table>>, table: Table) -> usize
    requires { vec_len tables.old < vec_capacity tables.old }
    ensures items { tables.new.items ≡ edited is_vacant is_vacant tables.old.items (Some table ∷ []) }
    ensures len { vec_len tables.new ≤ vec_len tables.old + 1 }
    ensures capacity { vec_capacity tables.new ≡ vec_capacity tables.old }
{
    let number = vacant_number(tables);
    if number < tables.len() {
        tables[number] = Some(table);
    } else {
        tables.push_reserved(Some(table));
    }
    number
}

/// The places of the key columns of the table with this number.
pub(crate) fn key_of(tables: &[Option<Table>], table: usize) -> &[u32]
    ensures { result.now ≡ key_of table tables.now }
{
    match tables.get(table) {
        Some(Some(table)) => table.key.as_slice(),
        _ => &[],
    }
}
