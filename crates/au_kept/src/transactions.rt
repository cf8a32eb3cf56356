//! Laws of transactions over what is kept.
ghost use Rattle.std.specs.Prelude.{◌≡◌, ◌≢◌, ◌++◌, [], List, Option, Some, map};
ghost use Rattle.std.specs.List.{AllByRecursion};
ghost use Rattle.au_base.specs.declared.numbers.ClientNo.{ClientNo};
ghost use Rattle.au_base.specs.declared.numbers.Stamp.{Stamp};
ghost use Rattle.au_entries.specs.declared.change.Change.{Change};
ghost use Rattle.au_entries.specs.declared.kept.Kept.{Kept};
ghost use Rattle.au_entries.specs.declared.trail_record.Record.{Record};
ghost use Rattle.au_entries.specs.Frames.{after_parts};
ghost use Rattle.au_image.specs.Image.{open_table};
ghost use Rattle.au_kept.specs.Keeping.{Contents, HoldsTogether, desk_of};
ghost use Rattle.au_kept.specs.Sound.{IsKept};
ghost use Rattle.au_kept.specs.Staging.{CanSettle, IsLogged, IsOfRow};
ghost use Rattle.au_kept.specs.Writing.{KeepsKeys, KeepsSound};
ghost use Rattle.au_replay.specs.Reading.{conditions};
ghost use Rattle.au_txn.specs.declared.change.RowChange.{RowChange};
ghost use Rattle.au_txn.specs.Desks.{Contents as Desk, IsWritable, open_of};
ghost use Rattle.au_txn.specs.Keys.{ChangesOne};
ghost use Rattle.au_txn.specs.Rows.{of_triple};
ghost use Rattle.au_txn.specs.Transactions.{AreFrom, laid_over};

/// What is so of transactions over what is kept stays so: over the same desk told otherwise; where
/// none is open; where a client writes, or ends its transaction; and where changes that can be settled
/// are. It does nothing, and states the laws for its callers.
pub fn transactions_hold()
    ensures same { (kept : Kept) (before after : Desk) → HoldsTogether kept before → after.tables ≡ before.tables → after.rows ≡ before.rows
        → ((client : ClientNo) → open_of after client ≡ open_of before client) → HoldsTogether kept after }
    ensures quiet { (kept : Kept) (desk : Desk) → IsKept conditions kept → desk.tables ≡ map open_table kept.tables → desk.rows ≡ map of_triple kept.rows
        → ((client : ClientNo) → open_of desk client ≡ []) → HoldsTogether kept desk }
    ensures written { (kept : Kept) (before after : Desk) (client : ClientNo) (changes : List RowChange) → HoldsTogether kept before → client.0 ≢ 0
        → AllByRecursion (IsWritable before.tables (open_of before) client) changes → AreFrom (laid_over before.rows (open_of before client)) changes
        → KeepsKeys before client changes → KeepsSound kept.tables before client changes
        → after.tables ≡ before.tables → after.rows ≡ before.rows → ChangesOne client (open_of before client ++ changes) (open_of before) (open_of after)
        → HoldsTogether kept after }
    ensures ended { (kept : Kept) (before after : Desk) (client : ClientNo) → HoldsTogether kept before
        → after.tables ≡ before.tables → after.rows ≡ before.rows → ChangesOne client [] (open_of before) (open_of after) → HoldsTogether kept after }
    ensures settled { (contents : Contents) (commits : Option ClientNo) (changes logged : List Change) (records : List Record) (last : Stamp) (purge : Option (Option Stamp)) (kept : Kept) (after : Desk)
        → HoldsTogether contents.kept (desk_of contents) → CanSettle contents commits changes records last → AllByRecursion (λ change. ¬ IsOfRow change) changes
        → IsLogged commits contents changes logged → kept ≡ after_parts conditions.tree last purge logged records contents.kept
        → after.tables ≡ map open_table kept.tables → after.rows ≡ map of_triple kept.rows
        → ((client : ClientNo) → commits ≡ Some client → open_of after client ≡ [])
        → ((client : ClientNo) → commits ≢ Some client → open_of after client ≡ open_of (desk_of contents) client)
        → HoldsTogether kept after }
{
    au_entries::changes_keep_laws();
    au_txn::desks_stay_keyed();
    au_txn::finals_settle();
    au_txn::laid_rows_answer();
    au_txn::rows_are_triples();
    au_txn::rows_are_what_they_answer();
    au_txn::rows_stand_by_tables();
    au_txn::tables_go_with_their_rows();
}
