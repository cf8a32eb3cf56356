//! The rows of one store.
ghost use Rattle.std.specs.Prelude.{◌≡◌, ◌↔◌, ◌+◌, ◌<◌, ◌≤◌, [], true, None, IsSome, IsTrue, IfNone, IfOk, IfSome, OnOk, List, filter, is_some, length, map, slice_set};
ghost use Rattle.std.specs.List.{list_all};
ghost use Rattle.std.specs.Option.{option_map};
ghost use Rattle.au_base.specs.declared.cell.Cell.{Cell};
ghost use Rattle.au_base.specs.declared.numbers.RowNo.{RowNo};
ghost use Rattle.au_rows.specs.Held.{Agrees, IsLocked, IsOpen, IsUnder, IsUnderOther, changes_of_others, is_elsewhere, is_free_for, is_of, is_of_other, largest_of, lent, next_of, number_of, owner_of, seen_at, settled_by, undone_by, view_of, with_table};
ghost use Rattle.au_rows.specs.Calls.{after_mark, after_put};

use crate::changes::Changes;
use crate::closing::end_changes;
use crate::dropping::drop_rows;
use crate::ending::Ending;
use crate::guesses::Guesses;
use crate::hash::{name_hash, version_hash};
use crate::keys::{Asked, is_locked, is_settled_in};
use crate::places::Places;
use crate::reading::{is_seen_in, next_in, other_in, under_in, view_in};
use crate::table::Table;
use crate::tables::{add_table, forget_name, key_of, number_of};
use crate::unsettled::Unsettled;
use crate::version::Version;
use crate::versions::Versions;
use au_base::{Cell, ClientNo, List, Memory, RowNo, TableName};
use std::alloc::Global;
use std::marker::Model;

/// The rows of all tables of one store. A row has its committed content, and at most one client
/// with newer content. Contracts see the tables, the rows, the unsettled changes in the order in
/// which they were made, and `spare`: how many calls of `put` and `open_table` are sure to find
/// their memory.
#[derive(Drop)]
pub struct Rows {
    tables: Vec<Option<Table>>,
    guesses: Guesses,
    places: Places,
    unsettled: Changes,
    versions: Versions,
}

impl Model for Rows {
    ghost use Rattle.au_rows.specs.Held.{Contents};

    ghost Value = { Contents };

    ghost use Rattle.std.specs.Prelude.{◌≡◌, ◌≤◌, ◌-◌, true, map, min, nat_eq, vec_len, vec_capacity};
    ghost use Rattle.std.specs.List.{count_by, list_all};
    ghost use Rattle.indexmap.specs.IndexMap.{get, spare};
    ghost use Rattle.au_rows.specs.Kept.{AreApart, AreKnown, IsIndexed, Sound, change_of, held_of, place_open, place_shown};
    ghost use Rattle.au_rows.specs.Spare.{spare_of};

    ghost view = { λ r. record { tables = r.tables.items; held = map (held_of r.versions.slots) r.places.listed; changes = map (change_of r.versions.slots) r.unsettled.listed; spare = spare_of (min (vec_capacity r.tables) r.places.tables - vec_len r.tables) (spare r.guesses.numbers) r.places.room r.versions.room r.unsettled.room (count_by place_shown r.places.listed) } };

    ghost invariant = { λ r. Sound r.places.listed r.versions.slots r.unsettled.listed × (list_all (place_open r.tables.items) r.places.listed ≡ true) × (count_by place_shown r.places.listed ≤ r.unsettled.room) × IsIndexed r.tables.items r.versions.slots × AreApart r.tables.items × AreKnown r.tables.items (λ hash. get nat_eq r.guesses.numbers hash) × (vec_len r.tables ≤ r.places.tables) };
}

impl Rows {
    /// No table and no row, with spare 0.
    pub fn new(alloc: Global) -> Result<Rows, Memory>
        ensures { IfOk result (λ rows. rows ≡ record { tables = []; held = []; changes = []; spare = 0 }) }
    {
        Ok(Rows {
            tables: Vec::new(alloc),
            guesses: Guesses::new(alloc),
            places: Places::new(alloc)?,
            unsettled: Changes::new(alloc)?,
            versions: Versions::new(alloc),
        })
    }

    /// Makes `spare` at least `more`. Where there is no memory, the rows are as they were, with no
    /// less spare.
    pub fn reserve(&mut self, more: usize) -> Result<(), Memory>
        ensures ok { OnOk result (more ≤ self.new.spare) }
        ensures rest { self.new ≡ record self.old { spare = self.new.spare } }
        ensures spare { self.old.spare ≤ self.new.spare }
    {
        let Some(twice) = more.checked_mul(2) else {
            return Err(Memory);
        };
        let Some(changes) = twice.checked_add(self.places.len()) else {
            return Err(Memory);
        };
        let Some(all_tables) = self.tables.len().checked_add(more) else {
            return Err(Memory);
        };
        self.tables.reserve(more)?;
        self.guesses.reserve(more)?;
        self.places.reserve(more)?;
        self.places.count_tables(all_tables)?;
        self.versions.reserve(more)?;
        self.unsettled.reserve(changes)?;
        Ok(())
    }

    /// Opens a table. `key` has the places of the key's columns. It takes no memory.
    pub fn open_table(&mut self, table: TableName, key: Vec<u32>)
        requires spare { 0 < self.old.spare }
        requires new { ¬ IsOpen table self.old.tables }
        ensures rest { self.new ≡ record self.old { tables = with_table table key.items self.old.tables; spare = self.new.spare } }
        ensures empty { filter (is_of (number_of table self.new.tables)) self.new.held ≡ [] }
        ensures spare { self.old.spare ≤ self.new.spare + 1 }
    {
        let key = List::from_vec(key);
        let name = name_hash(&table);
        let number = add_table(&mut self.tables, Table { name: table, key });
        self.guesses.insert(name, number);
    }

    /// Takes the table and its rows away. It takes no memory.
    pub fn drop_table(&mut self, table: &TableName)
        requires open { IsOpen table.now self.old.tables }
        requires settled { (row : RowNo) → owner_of (number_of table.now self.old.tables) row self.old.held ≡ None }
        ensures rest { self.new ≡ record self.old { tables = slice_set self.old.tables (number_of table.now self.old.tables) None; held = filter (is_elsewhere (number_of table.now self.old.tables)) self.old.held; spare = self.new.spare } }
        ensures spare { self.old.spare ≤ self.new.spare }
    {
        let number = number_of(&self.tables, &self.guesses, table);
        drop_rows(&mut self.places, &mut self.versions, number);
        self.tables[number] = None;
        forget_name(&self.tables, &mut self.guesses, table);
    }

    /// Makes the client's new content of the row. It takes no memory.
    pub fn put(&mut self, table: &TableName, row: RowNo, cells: Vec<Cell>, by: ClientNo)
        requires numbered { 1 ≤ row.0 }
        requires spare { 0 < self.old.spare }
        requires open { IsOpen table.now self.old.tables }
        requires free { is_free_for by (owner_of (number_of table.now self.old.tables) row self.old.held) ≡ true }
        ensures rest { self.new ≡ record (after_put (number_of table.now self.old.tables) row cells.items by self.old) { spare = self.new.spare } }
        ensures spare { self.old.spare ≤ self.new.spare + 1 }
    {
        let table = number_of(&self.tables, &self.guesses, table);
        let hash = version_hash(table, row, key_of(&self.tables, table), &cells);
        let short = self.places.short(table);
        let slot = self.versions.insert(Version {
            table: short,
            number: row,
            cells: List::from_vec(cells),
            hash,
        });
        self.places.own(table, row, by, Some(slot));
        self.unsettled.push(Unsettled {
            by,
            table: short,
            number: row,
            slot: Some(slot),
        });
    }

    /// Makes the row gone for the client. It takes no memory.
    pub fn mark(&mut self, table: &TableName, row: RowNo, by: ClientNo)
        requires seen { IsSome (seen_at (number_of table.now self.old.tables) row by self.old.held) }
        requires free { is_free_for by (owner_of (number_of table.now self.old.tables) row self.old.held) ≡ true }
        ensures rest { self.new ≡ record (after_mark (number_of table.now self.old.tables) row by self.old) { spare = self.new.spare } }
        ensures spare { self.old.spare ≤ self.new.spare }
    {
        let table = number_of(&self.tables, &self.guesses, table);
        let short = self.places.short(table);
        self.places.own(table, row, by, None);
        self.unsettled.push(Unsettled {
            by,
            table: short,
            number: row,
            slot: None,
        });
    }

    /// The first row over `after` that the client sees. `None` exactly where there is none.
    pub fn next(&self, table: &TableName, after: RowNo, by: ClientNo) -> Option<(RowNo, &[Cell])>
        ensures { option_map lent result ≡ next_of (number_of table.now self.now.tables) after by self.now.held }
    {
        let table = number_of(&self.tables, &self.guesses, table);
        next_in(&self.places, &self.versions, table, after, by)
    }

    /// The rows of the table that the client sees, by their numbers, in one walk.
    pub fn view(
        &self,
        alloc: Global,
        table: &TableName,
        by: ClientNo,
    ) -> Result<Vec<(RowNo, &[Cell])>, Memory>
        ensures { IfOk result (λ rows. map lent rows.items ≡ view_of (number_of table.now self.now.tables) by self.now.held) }
    {
        let table = number_of(&self.tables, &self.guesses, table);
        view_in(alloc, &self.places, &self.versions, table, by)
    }

    /// How many row numbers the table's committed rows and unsettled changes name, and the largest
    /// of them, 0 where there is none.
    pub fn numbers(&self, table: &TableName) -> (u32, u32)
        ensures count { result.0 ≡ length (filter (is_of (number_of table.now self.now.tables)) self.now.held) }
        ensures largest { result.1 ≡ largest_of (number_of table.now self.now.tables) self.now.held }
    {
        let table = number_of(&self.tables, &self.guesses, table);
        self.places.numbers(table)
    }

    /// Whether an unsettled change of another client has the key as its old or new key.
    pub fn key_locked(&self, table: &TableName, key: &[Cell], by: ClientNo) -> bool
        ensures { IsTrue result ↔ IsLocked self.now (number_of table.now self.now.tables) key.now by }
    {
        let table = number_of(&self.tables, &self.guesses, table);
        let places = key_of(&self.tables, table);
        let asked = Asked {
            table,
            places,
            key,
            by,
        };
        is_locked(
            &self.places,
            &self.versions,
            self.unsettled.entries(),
            &asked,
        )
    }

    /// The client with an unsettled change of the row. `None` exactly where there is none.
    pub fn owner(&self, table: &TableName, row: RowNo) -> Option<ClientNo>
        ensures { result ≡ owner_of (number_of table.now self.now.tables) row self.now.held }
    {
        let table = number_of(&self.tables, &self.guesses, table);
        self.places.owner(table, row)
    }

    /// Whether no other client has an unsettled change of the row.
    pub fn is_free(&self, table: &TableName, row: RowNo, by: ClientNo) -> bool
        ensures { result ≡ is_free_for by (owner_of (number_of table.now self.now.tables) row self.now.held) }
    {
        match self.owner(table, row) {
            Some(owner) => owner.0 == by.0,
            None => true,
        }
    }

    /// Whether a table of this name is open.
    pub fn is_open(&self, table: &TableName) -> bool
        ensures { IsTrue result ↔ IsOpen table.now self.now.tables }
    {
        number_of(&self.tables, &self.guesses, table) < self.tables.len()
    }

    /// Whether the client sees the row.
    pub fn is_seen(&self, table: &TableName, row: RowNo, by: ClientNo) -> bool
        ensures { result ≡ is_some (seen_at (number_of table.now self.now.tables) row by self.now.held) }
    {
        let table = number_of(&self.tables, &self.guesses, table);
        is_seen_in(&self.places, table, row, by)
    }

    /// Whether no client has an unsettled change of a row of the table.
    pub fn is_settled(&self, table: &TableName) -> bool
        ensures changes { result ≡ list_all (is_of_other (number_of table.now self.now.tables)) self.now.changes }
        ensures owners { IsTrue result → (row : RowNo) → owner_of (number_of table.now self.now.tables) row self.now.held ≡ None }
    {
        let table = number_of(&self.tables, &self.guesses, table);
        is_settled_in(self.unsettled.entries(), table)
    }

    /// A row of the table that the client sees and that has this key. `None` exactly where there
    /// is none.
    pub fn under(&self, table: &TableName, key: &[Cell], by: ClientNo) -> Option<(RowNo, &[Cell])>
        ensures some { IfSome result (λ row. IsUnder self.now (number_of table.now self.now.tables) key.now by (lent row)) }
        ensures none { IfNone result ((row : RowNo × List Cell) → ¬ IsUnder self.now (number_of table.now self.now.tables) key.now by row) }
    {
        let table = number_of(&self.tables, &self.guesses, table);
        let asked = Asked {
            table,
            places: key_of(&self.tables, table),
            key,
            by,
        };
        under_in(&self.places, &self.versions, &asked)
    }

    /// Another row of the table than the given one that the client sees and that has this key.
    /// `None` exactly where there is none.
    pub fn under_other(
        &self,
        table: &TableName,
        key: &[Cell],
        row: RowNo,
        by: ClientNo,
    ) -> Option<RowNo>
        ensures some { IfSome result (λ other. IsUnderOther self.now (number_of table.now self.now.tables) key.now row by other) }
        ensures none { IfNone result ((other : RowNo) → ¬ IsUnderOther self.now (number_of table.now self.now.tables) key.now row by other) }
    {
        let table = number_of(&self.tables, &self.guesses, table);
        let asked = Asked {
            table,
            places: key_of(&self.tables, table),
            key,
            by,
        };
        other_in(&self.places, &self.versions, &asked, row)
    }

    /// Makes the client's changes committed. It takes no memory.
    pub fn settle(&mut self, by: ClientNo)
        ensures rest { self.new ≡ record self.old { held = settled_by by self.old.held; changes = changes_of_others by self.old.changes; spare = self.new.spare } }
        ensures spare { self.old.spare ≤ self.new.spare }
    {
        end_changes(
            &mut self.places,
            &mut self.versions,
            &mut self.unsettled,
            by,
            Ending::Settle,
        );
    }

    /// Takes the client's changes away. It takes no memory.
    pub fn undo(&mut self, by: ClientNo)
        ensures rest { self.new ≡ record self.old { held = undone_by by self.old.held; changes = changes_of_others by self.old.changes; spare = self.new.spare } }
        ensures spare { self.old.spare ≤ self.new.spare }
    {
        end_changes(
            &mut self.places,
            &mut self.versions,
            &mut self.unsettled,
            by,
            Ending::Undo,
        );
    }

    /// Each row's owner and the content that it sees are those of the last unsettled change of the
    /// row.
    pub fn last_changes(&self)
        ensures { Agrees self.now }
    {
        let _places = &self.places;
    }
}
