//! Each client's changes of rows, which are open until it commits them or takes them back.
ghost use Rattle.std.specs.Prelude.{◌≡◌, ◌≢◌, ◌≤◌, ◌+◌, ◌++◌, [], IsTrue, OnOk, filter, length, map, not};
ghost use Rattle.std.specs.List.{AllByRecursion, filter_map};
ghost use Rattle.au_base.specs.declared.cell.Cell.{Cell as Content};
ghost use Rattle.au_base.specs.declared.numbers.ClientNo.{ClientNo as Client};
ghost use Rattle.au_base.specs.declared.table.TableName.{TableName as Name};
ghost use Rattle.au_kept.specs.Keeping.{desk_of};
ghost use Rattle.au_kept.specs.Writing.{KeepsKeys, KeepsSound};
ghost use Rattle.au_txn.specs.Desks.{IsWritable, open_of, spare_of};
ghost use Rattle.au_txn.specs.Logs.{changes_of, is_client};
ghost use Rattle.au_txn.specs.Transactions.{AreFrom, laid_over};

use crate::Keeping;
use au_base::{Cell, ClientNo, Memory};
use au_txn::RowChange;
use std::alloc::Global;

impl Keeping {
    /// Makes the client's spare at least `more`. Where there is no memory, all is as it was, and no
    /// client has less spare.
    pub fn reserve(&mut self, alloc: Global, client: ClientNo, more: usize) -> Result<(), Memory>
        ensures ok { OnOk result (more ≤ spare_of client (desk_of self.new)) }
        ensures kept { self.new.kept ≡ self.old.kept }
        ensures lists { (q : Client) → changes_of q self.new.logs ≡ changes_of q self.old.logs }
        ensures spares { (q : Client) → spare_of q (desk_of self.old) ≤ spare_of q (desk_of self.new) }
        ensures spare { self.old.spare ≤ self.new.spare }
        ensures room { self.new.room ≡ self.old.room }
    {
        au_txn::desks_stay_keyed();
        self.desk.reserve(alloc, client, more)
    }

    /// Makes the changes and adds them to the client's. `contents` has the new contents of those
    /// changes that have one, in order. Each fits its table, can be spelled, and stays within the limits
    /// of row numbers and of changes. It takes no memory.
    pub fn write(&mut self, client: ClientNo, changes: Vec<RowChange>, contents: Vec<Vec<Cell>>)
        requires client { client.0 ≢ 0 }
        requires spare { length changes.items ≤ spare_of client (desk_of self.old) }
        requires changes { AllByRecursion (IsWritable (desk_of self.old).tables (open_of (desk_of self.old)) client) changes.items }
        requires old { AreFrom (laid_over (desk_of self.old).rows (open_of (desk_of self.old) client)) changes.items }
        requires keys { KeepsKeys (desk_of self.old) client changes.items }
        requires sound { KeepsSound self.old.kept.tables (desk_of self.old) client changes.items }
        requires contents { map (λ cells. cells.items) contents.items ≡ filter_map (λ change. change.new) changes.items }
        ensures kept { self.new.kept ≡ self.old.kept }
        ensures own { changes_of client self.new.logs ≡ changes_of client self.old.logs ++ changes.items }
        ensures others { (q : Client) → q.0 ≢ client.0 → changes_of q self.new.logs ≡ changes_of q self.old.logs }
        ensures spares { spare_of client (desk_of self.old) ≤ spare_of client (desk_of self.new) + length changes.items }
        ensures spare { self.old.spare ≤ self.new.spare + length changes.items }
        ensures room { self.new.room ≡ self.old.room }
    {
        au_txn::desks_stay_keyed();
        au_txn::rows_are_triples();
        self.desk.write(client, changes, contents);
    }

    /// Takes the client's changes away. It takes no memory.
    pub fn rollback(&mut self, client: ClientNo)
        ensures kept { self.new.kept ≡ self.old.kept }
        ensures own { changes_of client self.new.logs ≡ [] }
        ensures others { (q : Client) → q.0 ≢ client.0 → changes_of q self.new.logs ≡ changes_of q self.old.logs }
        ensures spares { (q : Client) → spare_of q (desk_of self.old) ≤ spare_of q (desk_of self.new) }
        ensures spare { self.old.spare ≤ self.new.spare }
        ensures room { self.new.room ≡ self.old.room }
    {
        au_txn::desks_stay_keyed();
        self.desk.rollback(client);
    }

    /// Takes the client's changes away, and its list and spare with them. It takes no memory.
    pub fn forget(&mut self, client: ClientNo)
        ensures kept { self.new.kept ≡ self.old.kept }
        ensures lists { self.new.logs ≡ filter (λ log. not (is_client client log)) self.old.logs }
        ensures spares { (q : Client) → q.0 ≢ client.0 → spare_of q (desk_of self.old) ≤ spare_of q (desk_of self.new) }
        ensures spare { self.old.spare ≤ self.new.spare }
        ensures room { self.new.room ≡ self.old.room }
    {
        au_txn::desks_stay_keyed();
        self.desk.forget(client);
    }
}
