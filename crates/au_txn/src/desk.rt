//! Committed rows, and the changes of open transactions.
ghost use Rattle.std.specs.Prelude.{◌≡◌, ◌≢◌, ◌≤◌, ◌<◌, ◌+◌, ◌++◌, ◌∷◌, ◌↔◌, ◌⊎◌, [], List, IfNone, IfOk, IfSome, IsSome, IsTrue, OnOk, false, filter, length, map, not};
ghost use Rattle.std.specs.List.{AllByRecursion, Contains, filter_map};
ghost use Rattle.std.specs.Option.{option_copied, option_map};
ghost use Rattle.au_base.specs.declared.cell.Cell.{Cell as Content};
ghost use Rattle.au_base.specs.declared.numbers.ClientNo.{ClientNo as Client};
ghost use Rattle.au_base.specs.declared.numbers.RowNo.{RowNo as Number};
ghost use Rattle.au_base.specs.declared.table.TableName.{TableName as Name};
ghost use Rattle.au_base.specs.Order.{is_in_order, placed};
ghost use Rattle.au_rows.specs.Held.{lent};
ghost use Rattle.au_txn.specs.Counts.{AreNumbers};
ghost use Rattle.au_txn.specs.Desks.{IsWritable, contents_of, has_name, is_open, key_of, laid_but, laid_by, laid_row, open_of, replayer, spare_of, table_before};
ghost use Rattle.au_txn.specs.Finals.{AreFinals};
ghost use Rattle.au_txn.specs.Logs.{changes_of, is_client, room_of};
ghost use Rattle.au_txn.specs.Rows.{Row, are_in_order, is_in, row_at};
ghost use Rattle.au_txn.specs.Transactions.{AreFrom, IsKeyLocked, IsRowLocked, IsUnder, IsUnderOther, laid_over, names_row, names_table, view as view_of};

use crate::listing::{content_of, finals_in};
use crate::log::{append_for, clear_for, find_changes, forget_for, reserve_for};
use crate::named::sorted_names;
use crate::writing::{lay_one, write_all};
use crate::{Final, Log, RowChange, View};
use au_base::{Cell, ClientNo, Memory, RowNo, TableName};
use au_rows::Rows;
use std::alloc::Global;
use std::marker::Model;

/// The committed rows of all tables, and one list of changes for each client. Contracts see the
/// open tables and the committed rows in order, each client's changes, the rows that replay has
/// laid as client 0 without a list, and `spare`: how many more rows and tables are sure to find
/// their memory.
#[derive(Drop)]
pub struct Desk {
    rows: Rows,
    logs: Vec<Log>,
}

impl Model for Desk {
    ghost use Rattle.au_txn.specs.Desks.{Contents};

    ghost Value = { Contents };

    ghost use Rattle.au_txn.specs.Desks.{open_in};
    ghost use Rattle.au_txn.specs.Inside.{Ties, committed, laid_in, open_tables};

    ghost view = { λ d. record { tables = open_tables d.rows.tables; rows = committed d.rows.tables d.rows.held; logs = d.logs.items; laid = laid_in d.rows d.logs.items; spare = d.rows.spare } };

    ghost invariant = { λ d. Ties d.rows (open_in (laid_in d.rows d.logs.items) d.logs.items) };
}

impl Desk {
    /// No table, no row and no change, with spare 0.
    pub fn new(alloc: Global) -> Result<Desk, Memory>
        ensures { IfOk result (λ desk. desk ≡ record { tables = []; rows = []; logs = []; laid = []; spare = 0 }) }
    {
        Ok(Desk {
            rows: Rows::new(alloc)?,
            logs: Vec::new(alloc),
        })
    }

    /// The client's changes, the oldest first. Rows that are laid stand in no list.
    pub fn changes(&self, client: ClientNo) -> &[RowChange]
        ensures listed { result.now ≡ changes_of client self.now.logs }
        ensures open { laid_by client self.now.laid ≡ [] → result.now ≡ open_of self.now client }
        ensures others { client.0 ≢ 0 → result.now ≡ open_of self.now client }
    {
        find_changes(&self.logs, client)
    }

    /// What the client sees of the table: the committed rows with its own changes laid over them,
    /// by row number. Of a table that isn't open it is nothing.
    pub fn view(
        &self,
        alloc: Global,
        client: ClientNo,
        table: &TableName,
    ) -> Result<View<'_>, Memory>
        ensures { IfOk result (λ view. map lent view.rows.items ≡ map contents_of (view_of self.now.rows (open_of self.now client) table.now)) }
    {
        let rows = self.rows.view(alloc, table, client)?;
        Ok(View { rows })
    }

    /// What the client sees of the row. `None` exactly where it sees no such row. It takes no memory.
    pub fn seen(&self, client: ClientNo, table: &TableName, row: RowNo) -> Option<&[Cell]>
        requires numbered { 1 ≤ row.0 }
        ensures { option_copied result ≡ row_at table.now row (laid_over self.now.rows (open_of self.now client)) }
    {
        content_of(&self.rows, table, row, client)
    }

    /// How many numbers of the table's rows are used by committed rows and by changes of open
    /// transactions, and the largest of them, 0 where there is none. It takes no memory.
    pub fn numbers(&self, table: &TableName) -> (u32, u32)
        ensures { AreNumbers self.now.rows (open_of self.now) table.now result.0 result.1 }
    {
        self.rows.numbers(table)
    }

    /// Whether another client has a change of the row. It takes no memory.
    pub fn locked_row(&self, client: ClientNo, table: &TableName, row: RowNo) -> bool
        ensures { IsTrue result ↔ IsRowLocked (open_of self.now) client table.now row }
    {
        !self.rows.is_free(table, row, client)
    }

    /// Whether another client has a change of the table with this key as its old or its new one. A
    /// table without a key has the empty one. It takes no memory.
    pub fn locked_key(&self, client: ClientNo, table: &TableName, key: &[Cell]) -> bool
        ensures { IsTrue result ↔ IsKeyLocked (key_of table.now self.now.tables) (open_of self.now) client table.now key.now }
    {
        self.rows.key_locked(table, key, client)
    }

    /// A row of the table that the client sees and that has this key. `None` exactly where there is
    /// none. It takes no memory.
    pub fn under(
        &self,
        client: ClientNo,
        table: &TableName,
        key: &[Cell],
    ) -> Option<(RowNo, &[Cell])>
        ensures some { IfSome result (λ row. IsUnder (key_of table.now self.now.tables) key.now table.now (laid_over self.now.rows (open_of self.now client)) (lent row)) }
        ensures none { IfNone result ((row : Number × List Content) → ¬ IsUnder (key_of table.now self.now.tables) key.now table.now (laid_over self.now.rows (open_of self.now client)) row) }
    {
        self.rows.under(table, key, client)
    }

    /// Another row of the table than the given one that the client sees and that has this key.
    /// `None` exactly where there is none. It takes no memory.
    pub fn under_other(
        &self,
        client: ClientNo,
        table: &TableName,
        key: &[Cell],
        row: RowNo,
    ) -> Option<RowNo>
        ensures some { IfSome result (λ other. IsUnderOther (key_of table.now self.now.tables) key.now table.now (laid_over self.now.rows (open_of self.now client)) row other) }
        ensures none { IfNone result ((other : Number) → ¬ IsUnderOther (key_of table.now self.now.tables) key.now table.now (laid_over self.now.rows (open_of self.now client)) row other) }
    {
        self.rows.under_other(table, key, row, client)
    }

    /// What holds of every desk: the tables and the committed rows stand in order, and each row is of
    /// an open table; each change is of an open table too, and of what stood before it; row numbers
    /// are at least 1; and no row is in two clients' changes. It does nothing, and states it for its
    /// callers.
    pub fn holds_together(&self)
        ensures tables { IsTrue (is_in_order table_before self.now.tables) }
        ensures rows { IsTrue (are_in_order self.now.rows) }
        ensures open { (row : Row) → Contains self.now.rows row → IsTrue (is_open row.table self.now.tables) × (1 ≤ row.number.0) }
        ensures there { (client : Client) → AllByRecursion (λ change. IsTrue (is_open change.table self.now.tables)) (open_of self.now client) }
        ensures numbered { (client : Client) → AllByRecursion (λ change. 1 ≤ change.row.0) (open_of self.now client) }
        ensures old { (client : Client) → AreFrom self.now.rows (open_of self.now client) }
        ensures apart { (a b : Client) (table : Name) (row : Number) → a.0 ≢ b.0 → IsTrue (names_row table row (open_of self.now a)) → names_row table row (open_of self.now b) ≡ false }
    {
        let _rows = &self.rows;
    }

    /// What a commit of the client's changes leaves of its rows: those with another content than
    /// the committed one, each once, by owner, table and number. Rows that are laid aren't listed.
    pub fn finals(&self, alloc: Global, client: ClientNo) -> Result<Vec<Final>, Memory>
        ensures listed { IfOk result (λ finals. laid_by client self.now.laid ≡ [] → AreFinals self.now.rows (open_of self.now client) finals.items) }
        ensures others { client.0 ≢ 0 → IfOk result (λ finals. AreFinals self.now.rows (open_of self.now client) finals.items) }
    {
        let names = sorted_names(alloc, find_changes(&self.logs, client))?;
        let clients = (client, other_than(client));
        finals_in(alloc, &self.rows, names.as_slice(), clients)
    }

    /// Whether a table of this name is open. It takes no memory.
    pub fn is_open(&self, table: &TableName) -> bool
        ensures { result ≡ is_open table.now self.now.tables }
    {
        self.rows.is_open(table)
    }

    /// Whether no client has a change of a row of the table. It takes no memory.
    pub fn is_settled(&self, table: &TableName) -> bool
        ensures { IsTrue result ↔ ((client : Client) → names_table table.now (open_of self.now client) ≡ false) }
    {
        self.rows.is_settled(table)
    }

    /// Makes the client's `spare` at least `more`. Where there is no memory, the desk is as it was,
    /// and no client has less spare.
    pub fn reserve(&mut self, alloc: Global, client: ClientNo, more: usize) -> Result<(), Memory>
        ensures ok { OnOk result (more ≤ spare_of client self.new) }
        ensures tables { self.new.tables ≡ self.old.tables }
        ensures rows { self.new.rows ≡ self.old.rows }
        ensures changes { (q : Client) → open_of self.new q ≡ open_of self.old q }
        ensures laid { self.new.laid ≡ self.old.laid }
        ensures lists { (q : Client) → changes_of q self.new.logs ≡ changes_of q self.old.logs }
        ensures spare { (q : Client) → spare_of q self.old ≤ spare_of q self.new }
        ensures room { self.old.spare ≤ self.new.spare }
        ensures rooms { (q : Client) → room_of q self.old.logs ≤ room_of q self.new.logs }
    {
        self.rows.reserve(more)?;
        reserve_for(alloc, &mut self.logs, client, more)
    }

    /// Makes the changes and adds them to the client's. `contents` has the new contents of those
    /// changes that have one, in order. It takes no memory.
    pub fn write(&mut self, client: ClientNo, changes: Vec<RowChange>, contents: Vec<Vec<Cell>>)
        requires spare { length changes.items ≤ spare_of client self.old }
        requires changes { AllByRecursion (IsWritable self.old.tables (open_of self.old) client) changes.items }
        requires old { AreFrom (laid_over self.old.rows (open_of self.old client)) changes.items }
        requires contents { map (λ cells. cells.items) contents.items ≡ filter_map (λ change. change.new) changes.items }
        ensures tables { self.new.tables ≡ self.old.tables }
        ensures rows { self.new.rows ≡ self.old.rows }
        ensures own { open_of self.new client ≡ open_of self.old client ++ changes.items }
        ensures others { (q : Client) → q.0 ≢ client.0 → open_of self.new q ≡ open_of self.old q }
        ensures laid { self.new.laid ≡ self.old.laid }
        ensures spare { spare_of client self.old ≤ spare_of client self.new + length changes.items }
        ensures room { self.old.spare ≤ self.new.spare + length changes.items }
        ensures rooms { (q : Client) → q.0 ≢ client.0 → room_of q self.new.logs ≡ room_of q self.old.logs }
    {
        write_all(&mut self.rows, client, changes.as_slice(), contents);
        append_for(&mut self.logs, client, changes);
    }

    /// Makes the client's changes committed. It takes no memory.
    pub fn commit(&mut self, client: ClientNo)
        ensures tables { self.new.tables ≡ self.old.tables }
        ensures rows { self.new.rows ≡ laid_over self.old.rows (open_of self.old client) }
        ensures own { open_of self.new client ≡ [] }
        ensures listed { changes_of client self.new.logs ≡ [] }
        ensures others { (q : Client) → q.0 ≢ client.0 → open_of self.new q ≡ open_of self.old q }
        ensures lists { (q : Client) → q.0 ≢ client.0 → changes_of q self.new.logs ≡ changes_of q self.old.logs }
        ensures laid { self.new.laid ≡ laid_but client self.old.laid }
        ensures spare { spare_of client self.old ≤ spare_of client self.new }
        ensures room { self.old.spare ≤ self.new.spare }
        ensures rooms { (q : Client) → q.0 ≢ client.0 → room_of q self.new.logs ≡ room_of q self.old.logs }
        ensures all_spare { (q : Client) → spare_of q self.old ≤ spare_of q self.new }
    {
        self.rows.settle(client);
        clear_for(&mut self.logs, client);
    }

    /// Takes the client's changes away. It takes no memory.
    pub fn rollback(&mut self, client: ClientNo)
        ensures tables { self.new.tables ≡ self.old.tables }
        ensures rows { self.new.rows ≡ self.old.rows }
        ensures own { open_of self.new client ≡ [] }
        ensures listed { changes_of client self.new.logs ≡ [] }
        ensures others { (q : Client) → q.0 ≢ client.0 → open_of self.new q ≡ open_of self.old q }
        ensures lists { (q : Client) → q.0 ≢ client.0 → changes_of q self.new.logs ≡ changes_of q self.old.logs }
        ensures laid { self.new.laid ≡ laid_but client self.old.laid }
        ensures spare { spare_of client self.old ≤ spare_of client self.new }
        ensures room { self.old.spare ≤ self.new.spare }
        ensures rooms { (q : Client) → q.0 ≢ client.0 → room_of q self.new.logs ≡ room_of q self.old.logs }
        ensures all_spare { (q : Client) → spare_of q self.old ≤ spare_of q self.new }
    {
        self.rows.undo(client);
        clear_for(&mut self.logs, client);
    }

    /// Takes the client's changes away, and its list and spare with them. It takes no memory.
    pub fn forget(&mut self, client: ClientNo)
        ensures tables { self.new.tables ≡ self.old.tables }
        ensures rows { self.new.rows ≡ self.old.rows }
        ensures lists { self.new.logs ≡ filter (λ log. not (is_client client log)) self.old.logs }
        ensures own { open_of self.new client ≡ [] }
        ensures others { (q : Client) → q.0 ≢ client.0 → open_of self.new q ≡ open_of self.old q }
        ensures laid { self.new.laid ≡ laid_but client self.old.laid }
        ensures spare { (q : Client) → q.0 ≢ client.0 → spare_of q self.old ≤ spare_of q self.new }
        ensures room { self.old.spare ≤ self.new.spare }
    {
        self.rows.undo(client);
        forget_for(&mut self.logs, client);
    }

    /// Makes `spare` at least `more`, with no list for a client. Where there is no memory, the desk is
    /// as it was, with no less spare.
    pub fn reserve_rows(&mut self, more: usize) -> Result<(), Memory>
        ensures ok { OnOk result (more ≤ self.new.spare) }
        ensures tables { self.new.tables ≡ self.old.tables }
        ensures rows { self.new.rows ≡ self.old.rows }
        ensures lists { self.new.logs ≡ self.old.logs }
        ensures laid { self.new.laid ≡ self.old.laid }
        ensures spare { self.old.spare ≤ self.new.spare }
    {
        self.rows.reserve(more)
    }

    /// Lays a row as client 0, which sees it then with this content, or no longer: as a change of
    /// client 0 that stands in no list. It takes no memory.
    pub fn lay(&mut self, table: &TableName, row: RowNo, content: Option<Vec<Cell>>)
        requires spare { 0 < self.old.spare }
        requires there { IsTrue (is_open table.now self.old.tables) }
        requires free { ¬ IsRowLocked (open_of self.old) replayer table.now row }
        requires numbered { 1 ≤ row.0 }
        requires content { IsSome content ⊎ IsSome (row_at table.now row (laid_over self.old.rows (open_of self.old replayer))) }
        requires listed { changes_of replayer self.old.logs ≡ [] }
        ensures tables { self.new.tables ≡ self.old.tables }
        ensures rows { self.new.rows ≡ self.old.rows }
        ensures lists { self.new.logs ≡ self.old.logs }
        ensures laid { self.new.laid ≡ self.old.laid ++ laid_row self.old table.now row (option_map (λ cells. cells.items) content) ∷ [] }
        ensures own { open_of self.new replayer ≡ open_of self.old replayer ++ laid_row self.old table.now row (option_map (λ cells. cells.items) content) ∷ [] }
        ensures others { (q : Client) → q.0 ≢ 0 → open_of self.new q ≡ open_of self.old q }
        ensures spare { self.old.spare ≤ self.new.spare + 1 }
        ensures all_spare { (q : Client) → spare_of q self.old ≤ spare_of q self.new + 1 }
    {
        lay_one(&mut self.rows, table, row, content);
    }

    /// Makes what is laid committed, with all of client 0's changes. It takes no memory.
    pub fn keep_laid(&mut self)
        ensures tables { self.new.tables ≡ self.old.tables }
        ensures rows { self.new.rows ≡ laid_over self.old.rows (open_of self.old replayer) }
        ensures own { open_of self.new replayer ≡ [] }
        ensures listed { changes_of replayer self.new.logs ≡ [] }
        ensures laid { self.new.laid ≡ [] }
        ensures others { (q : Client) → q.0 ≢ 0 → open_of self.new q ≡ open_of self.old q }
        ensures lists { (q : Client) → q.0 ≢ 0 → changes_of q self.new.logs ≡ changes_of q self.old.logs }
        ensures rooms { (q : Client) → q.0 ≢ 0 → room_of q self.new.logs ≡ room_of q self.old.logs }
        ensures spare { self.old.spare ≤ self.new.spare }
        ensures all_spare { (q : Client) → spare_of q self.old ≤ spare_of q self.new }
    {
        self.commit(ClientNo(0));
    }

    /// Takes what is laid away, with all of client 0's changes. It takes no memory.
    pub fn drop_laid(&mut self)
        ensures tables { self.new.tables ≡ self.old.tables }
        ensures rows { self.new.rows ≡ self.old.rows }
        ensures own { open_of self.new replayer ≡ [] }
        ensures listed { changes_of replayer self.new.logs ≡ [] }
        ensures laid { self.new.laid ≡ [] }
        ensures others { (q : Client) → q.0 ≢ 0 → open_of self.new q ≡ open_of self.old q }
        ensures lists { (q : Client) → q.0 ≢ 0 → changes_of q self.new.logs ≡ changes_of q self.old.logs }
        ensures rooms { (q : Client) → q.0 ≢ 0 → room_of q self.new.logs ≡ room_of q self.old.logs }
        ensures spare { self.old.spare ≤ self.new.spare }
        ensures all_spare { (q : Client) → spare_of q self.old ≤ spare_of q self.new }
    {
        self.rollback(ClientNo(0));
    }

    /// Opens a table without rows. `key` has the places, from 0, of the key's columns, none for a
    /// table without a key. It takes no memory.
    pub fn open_table(&mut self, table: TableName, key: Vec<u32>)
        requires spare { 0 < self.old.spare }
        requires new { is_open table self.old.tables ≡ false }
        ensures tables { self.new.tables ≡ placed table_before (record { name = table; key = key.items }) self.old.tables }
        ensures rows { self.new.rows ≡ self.old.rows }
        ensures lists { self.new.logs ≡ self.old.logs }
        ensures changes { (q : Client) → open_of self.new q ≡ open_of self.old q }
        ensures laid { self.new.laid ≡ self.old.laid }
        ensures spare { (q : Client) → spare_of q self.old ≤ spare_of q self.new + 1 }
        ensures room { self.old.spare ≤ self.new.spare + 1 }
    {
        self.rows.open_table(table, key);
    }

    /// Takes the table and its rows away. It takes no memory.
    pub fn drop_table(&mut self, table: &TableName)
        requires there { IsTrue (is_open table.now self.old.tables) }
        requires settled { (client : Client) → names_table table.now (open_of self.old client) ≡ false }
        ensures tables { self.new.tables ≡ filter (λ other. not (has_name table.now other)) self.old.tables }
        ensures rows { self.new.rows ≡ filter (λ row. not (is_in table.now row)) self.old.rows }
        ensures lists { self.new.logs ≡ self.old.logs }
        ensures changes { (q : Client) → open_of self.new q ≡ open_of self.old q }
        ensures laid { self.new.laid ≡ self.old.laid }
        ensures spare { (q : Client) → spare_of q self.old ≤ spare_of q self.new }
        ensures room { self.old.spare ≤ self.new.spare }
    {
        self.rows.drop_table(table);
    }
}

/// Another client, whichever.
fn other_than(client: ClientNo) -> ClientNo
    ensures { result.0 ≢ client.0 }
{
    if client.0 == 0 {
        ClientNo(1)
    } else {
        ClientNo(0)
    }
}
