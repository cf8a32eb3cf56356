//! Laws of the changes of open transactions: that a commit can be settled, and that what each client
//! sees is sound.
ghost use Rattle.std.specs.Prelude.{◌≡◌, ◌≤◌, ◌<◌, ◌⊎◌, ◌∷◌, ◌↔◌, ℕ, [], false, IsTrue, List, Some, length, map};
ghost use Rattle.std.specs.List.{AllByRecursion, Contains};
ghost use Rattle.au_base.specs.Cells.{IsSoundCell};
ghost use Rattle.au_base.specs.Limits.{LAST_MOMENT, TABLE_ROW_NUMBERS, TRANSACTION_CHANGES};
ghost use Rattle.au_base.specs.declared.numbers.ClientNo.{ClientNo};
ghost use Rattle.au_base.specs.declared.numbers.RowNo.{RowNo};
ghost use Rattle.au_base.specs.declared.numbers.Stamp.{Stamp};
ghost use Rattle.au_base.specs.declared.table.TableName.{TableName};
ghost use Rattle.au_entries.specs.declared.change.Change.{Change};
ghost use Rattle.au_entries.specs.declared.table.Table.{Table};
ghost use Rattle.au_entries.specs.declared.trail_record.Record.{Record};
ghost use Rattle.au_entries.specs.Changing.{changed_all};
ghost use Rattle.au_entries.specs.Lawful.{FitColumns, IsWhole};
ghost use Rattle.au_entries.specs.Replaying.{AllGoOn, IsKeptTable};
ghost use Rattle.au_kept.specs.Keeping.{Contents, HoldsTogether, desk_of};
ghost use Rattle.au_kept.specs.OpenChanges.{AreAmong, AreSoundIfThere, FitsIfThere};
ghost use Rattle.au_kept.specs.Sound.{IsKept};
ghost use Rattle.au_kept.specs.Staging.{CanSettle, IsFree, committed_for, final_change};
ghost use Rattle.au_replay.specs.Reading.{conditions};
ghost use Rattle.au_txn.specs.declared.change.RowChange.{RowChange};
ghost use Rattle.au_txn.specs.declared.finals.Final.{Final};
ghost use Rattle.au_txn.specs.Counts.{AreNumbers};
ghost use Rattle.au_txn.specs.Desks.{is_open, key_of, open_of};
ghost use Rattle.au_txn.specs.Finals.{AreFinals};
ghost use Rattle.au_txn.specs.Keys.{KeysDiffer};
ghost use Rattle.au_txn.specs.Rows.{Row};
ghost use Rattle.au_txn.specs.Transactions.{IsNumber, laid_over, names_row};
ghost use Rattle.rec_codec.specs.Changes.{IsChangeSpellable};
ghost use Rattle.rec_codec.specs.Records.{trail_record};

/// A client's changes can always be committed. What becomes of its rows is 100,000 changes at most,
/// which go on from what is kept; what is kept after them is lawful, is whole and has a spelling. So
/// they can be settled with any records that have a spelling, by themselves and in front of changes
/// that go on from what they leave and keep it whole. It does nothing, and states the law for its
/// callers.
pub fn commits_can_settle()
    ensures alone { (contents : Contents) (client : ClientNo) (finals : List Final) (records : List Record) (last : Stamp) → HoldsTogether contents.kept (desk_of contents)
        → AreFinals (desk_of contents).rows (open_of (desk_of contents) client) finals → last.0 ≤ LAST_MOMENT → AllByRecursion trail_record.IsSpellable records
        → CanSettle contents (Some client) [] records last }
    ensures followed { (contents : Contents) (client : ClientNo) (finals : List Final) (changes : List Change) (records : List Record) (last : Stamp) → HoldsTogether contents.kept (desk_of contents)
        → AreFinals (desk_of contents).rows (open_of (desk_of contents) client) finals
        → AllGoOn conditions false (committed_for (Some client) contents) changes → IsWhole (changed_all conditions.tree changes (committed_for (Some client) contents))
        → last.0 ≤ LAST_MOMENT → AllByRecursion IsChangeSpellable changes → AllByRecursion trail_record.IsSpellable records
        → AllByRecursion (IsFree (Some client) (desk_of contents)) changes
        → CanSettle contents (Some client) changes records last }
    ensures goes { (contents : Contents) (client : ClientNo) (finals : List Final) → HoldsTogether contents.kept (desk_of contents)
        → AreFinals (desk_of contents).rows (open_of (desk_of contents) client) finals → AllGoOn conditions false contents.kept (map final_change finals) }
    ensures left { (contents : Contents) (client : ClientNo) (finals : List Final) → HoldsTogether contents.kept (desk_of contents)
        → AreFinals (desk_of contents).rows (open_of (desk_of contents) client) finals → changed_all conditions.tree (map final_change finals) contents.kept ≡ committed_for (Some client) contents }
    ensures kept { (contents : Contents) (client : ClientNo) (finals : List Final) → HoldsTogether contents.kept (desk_of contents)
        → AreFinals (desk_of contents).rows (open_of (desk_of contents) client) finals → IsKept conditions (committed_for (Some client) contents) }
    ensures few { (contents : Contents) (client : ClientNo) (finals : List Final) → HoldsTogether contents.kept (desk_of contents)
        → AreFinals (desk_of contents).rows (open_of (desk_of contents) client) finals → length finals ≤ TRANSACTION_CHANGES }
    ensures spelled { (contents : Contents) (client : ClientNo) (finals : List Final) → HoldsTogether contents.kept (desk_of contents)
        → AreFinals (desk_of contents).rows (open_of (desk_of contents) client) finals → AllByRecursion (λ final. IsChangeSpellable (final_change final)) finals }
{
    au_entries::changes_keep_laws();
    au_txn::finals_settle();
    au_txn::laid_rows_answer();
    au_txn::rows_are_triples();
    au_txn::rows_are_what_they_answer();
    au_txn::rows_stand_by_tables();
}

/// What each client sees of the tables is sound: each table is open with its key, whose places are
/// among its columns; contents that are committed, or that a client's change makes, fit their table's
/// columns and are cells that a row may have; keys differ in what each client sees; and so are the
/// trail's records. It does nothing, and states the law for its callers.
pub fn worlds_are_sound()
    ensures tables { (contents : Contents) (table : Table) → HoldsTogether contents.kept (desk_of contents) → Contains contents.kept.tables table
        → IsTrue (is_open table.name (desk_of contents).tables) × (key_of table.name (desk_of contents).tables ≡ table.key) × AllByRecursion (λ place. place < length table.columns) table.key }
    ensures committed { (contents : Contents) (row : Row) (table : Table) → HoldsTogether contents.kept (desk_of contents) → Contains (desk_of contents).rows row
        → IsKeptTable contents.kept row.table table → FitColumns table.columns row.cells × AllByRecursion IsSoundCell row.cells }
    ensures changed { (contents : Contents) (client : ClientNo) (change : RowChange) (table : Table) → HoldsTogether contents.kept (desk_of contents) → Contains (open_of (desk_of contents) client) change
        → IsKeptTable contents.kept change.table table → FitsIfThere table.columns change.new × AreSoundIfThere change.new }
    ensures keys { (contents : Contents) (client : ClientNo) (table : TableName) → HoldsTogether contents.kept (desk_of contents)
        → KeysDiffer (key_of table (desk_of contents).tables) table (laid_over (desk_of contents).rows (open_of (desk_of contents) client)) }
    ensures records { (contents : Contents) → HoldsTogether contents.kept (desk_of contents)
        → AllByRecursion (λ entry. (entry.session.0 ≤ 999_999_999_999_999_999) × (entry.stamp.0 ≤ LAST_MOMENT)) contents.kept.trail }
{}

/// What is told of a table's row numbers: they are among so many exactly where the count of them is no
/// more. Changes that name used numbers alone keep them among as many, and so does one of another row
/// where they were fewer. It does nothing, and states the law for its callers.
pub fn numbers_stay_few()
    ensures counted { (rows : List Row) (transactions : ClientNo → List RowChange) (table : TableName) (count last limit : ℕ) → AreNumbers rows transactions table count last
        → AreAmong limit (IsNumber rows transactions table) ↔ (count ≤ limit) }
    ensures used { (rows : List Row) (transactions : ClientNo → List RowChange) (table : TableName) (limit : ℕ) (changes : List RowChange)
        → AreAmong limit (IsNumber rows transactions table) → ((number : RowNo) → IsTrue (names_row table number changes) → IsNumber rows transactions table number)
        → AreAmong limit (λ number. IsNumber rows transactions table number ⊎ IsTrue (names_row table number changes)) }
    ensures one_more { (rows : List Row) (transactions : ClientNo → List RowChange) (table : TableName) (count last limit : ℕ) (change : RowChange) → AreNumbers rows transactions table count last
        → count < limit → AreAmong limit (λ number. IsNumber rows transactions table number ⊎ IsTrue (names_row table number (change ∷ []))) }
{}
