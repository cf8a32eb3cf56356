//! Laws of rows, transactions and keys. Each does nothing, and states its law for its callers.
ghost use Rattle.std.specs.Prelude.{◌≡◌, ◌≢◌, ◌⊎◌, ◌++◌, ◌∷◌, ◌↔◌, ◌==◌, ◌&&◌, ℕ, [], false, filter, flat_map, if◌then◌else◌, map, IsTrue, List, None, Option, Some, not};
ghost use Rattle.std.specs.Cmp.Lexicographic.{slice_cmp};
ghost use Rattle.std.specs.List.{AllByRecursion, Contains};
ghost use Rattle.std.specs.Ordering.{is_gt, is_lt, nat_cmp};
ghost use Rattle.au_base.specs.declared.cell.Cell.{Cell};
ghost use Rattle.au_base.specs.declared.numbers.ClientNo.{ClientNo};
ghost use Rattle.au_base.specs.declared.numbers.RowNo.{RowNo};
ghost use Rattle.au_base.specs.declared.table.TableName.{TableName};
ghost use Rattle.au_base.specs.Order.{fields_before, is_in_order, placed};
ghost use Rattle.au_base.specs.Sameness.{same_table};
ghost use Rattle.au_rows.specs.declared.table.Table.{Table};
ghost use Rattle.au_rows.specs.Held.{HasKey};
ghost use Rattle.au_txn.specs.declared.change.RowChange.{RowChange};
ghost use Rattle.au_txn.specs.declared.finals.Final.{Final};
ghost use Rattle.au_txn.specs.Desks.{Contents, has_name, is_open, key_of, open_of, replayer, table_before};
ghost use Rattle.au_txn.specs.Finals.{AreFinals};
ghost use Rattle.au_txn.specs.Keys.{AreDoubled, ChangesOne, Clashes, IsKeyed, IsKeyedDesk, KeysDiffer};
ghost use Rattle.au_txn.specs.Logs.{changes_of};
ghost use Rattle.au_txn.specs.Rows.{Row, are_in_order, is_in, laid_all, of_triple, place_of, row_at, rows_in, triple_of, with_content, without};
ghost use Rattle.au_txn.specs.Transactions.{AreFrom, IsKeyLocked, IsRowLocked, IsUnderOther, MakesKey, laid_over, names_row, names_table, rows_differ, view};

/// Rows in order are what they answer, and stay in order once changes are laid over them.
pub fn rows_are_what_they_answer()
    ensures same { (a b : List Row) → IsTrue (are_in_order a) → IsTrue (are_in_order b) → ((table : TableName) (number : RowNo) → row_at table number a ≡ row_at table number b) → a ≡ b }
    ensures ordered { (rows : List Row) (changes : List RowChange) → IsTrue (are_in_order rows) → IsTrue (are_in_order (laid_over rows changes)) }
{}

/// What a transaction leaves is one list, and leaves of the rows what its changes leave.
pub fn finals_settle()
    ensures settle { (rows : List Row) (changes : List RowChange) (finals : List Final) → IsTrue (are_in_order rows) → AreFinals rows changes finals → laid_all rows finals ≡ laid_over rows changes }
    ensures one { (rows : List Row) (changes : List RowChange) (a b : List Final) → AreFinals rows changes a → AreFinals rows changes b → a ≡ b }
{}

/// The discipline of keys stands where there is nothing, and where no client has changes and keys
/// differ. It stays where a client writes changes of what it sees, each of another row, of which no
/// row and no new key is locked, and which leave keys that differ; where a client commits or rolls
/// back; and where a table comes or goes.
pub fn keys_stay()
    ensures nothing { (keys : TableName → List ℕ) → IsKeyed keys [] (λ client. []) }
    ensures quiet { (keys : TableName → List ℕ) (rows : List Row) (transactions : ClientNo → List RowChange)
        → ((client : ClientNo) → transactions client ≡ []) → ((table : TableName) → KeysDiffer (keys table) table rows) → IsKeyed keys rows transactions }
    ensures written { (keys : TableName → List ℕ) (rows : List Row) (before after : ClientNo → List RowChange) (client : ClientNo) (changes : List RowChange)
        → IsKeyed keys rows before
        → AreFrom (laid_over rows (before client)) changes
        → IsTrue (rows_differ changes)
        → ((table : TableName) → KeysDiffer (keys table) table (laid_over rows (before client ++ changes)))
        → ((table : TableName) (key : List Cell) → keys table ≢ [] → MakesKey (keys table) table key changes → ¬ IsKeyLocked (keys table) before client table key)
        → ((table : TableName) (row : RowNo) → IsTrue (names_row table row changes) → ¬ IsRowLocked before client table row)
        → ChangesOne client (before client ++ changes) before after → IsKeyed keys rows after }
    ensures committed { (keys : TableName → List ℕ) (rows : List Row) (before after : ClientNo → List RowChange) (client : ClientNo)
        → IsKeyed keys rows before → ChangesOne client [] before after → IsKeyed keys (laid_over rows (before client)) after }
    ensures rolled_back { (keys : TableName → List ℕ) (rows : List Row) (before after : ClientNo → List RowChange) (client : ClientNo)
        → IsKeyed keys rows before → ChangesOne client [] before after → IsKeyed keys rows after }
    ensures opened { (before after : TableName → List ℕ) (rows : List Row) (transactions : ClientNo → List RowChange)
        → ((table : TableName) → (after table ≡ before table) ⊎ (((row : RowNo) → row_at table row rows ≡ None) × ((client : ClientNo) → names_table table (transactions client) ≡ false)))
        → IsKeyed before rows transactions → IsKeyed after rows transactions }
    ensures dropped { (keys : TableName → List ℕ) (rows : List Row) (transactions : ClientNo → List RowChange) (table : TableName)
        → ((client : ClientNo) → names_table table (transactions client) ≡ false)
        → IsKeyed keys rows transactions → IsKeyed keys (filter (λ row. not (is_in table row)) rows) transactions }
{}

/// What rows answer once contents are laid over them: a row that no change names as before, and one
/// that changes name the content of one of them, of its only one where they are of different rows.
/// Changes behind others are laid over what those leave; changes of different rows are of what
/// stands before all of them.
pub fn laid_rows_answer()
    ensures content { (table other : TableName) (number at : RowNo) (content : Option (List Cell)) (rows : List Row) → row_at table number (with_content other at content rows) ≡ (if same_table other table && (at.0 == number.0) then content else row_at table number rows) }
    ensures untouched { (rows : List Row) (changes : List RowChange) (table : TableName) (number : RowNo) → names_row table number changes ≡ false → row_at table number (laid_over rows changes) ≡ row_at table number rows }
    ensures named { (rows : List Row) (changes : List RowChange) (table : TableName) (number : RowNo) → IsTrue (names_row table number changes)
        → (change : RowChange) × Contains changes change × (change.table ≡ table) × (change.row ≡ number) × (row_at table number (laid_over rows changes) ≡ change.new) }
    ensures once { (rows : List Row) (changes : List RowChange) (change : RowChange) → IsTrue (rows_differ changes) → Contains changes change → row_at change.table change.row (laid_over rows changes) ≡ change.new }
    ensures behind { (rows : List Row) (a b : List RowChange) → laid_over rows (a ++ b) ≡ laid_over (laid_over rows a) b }
    ensures old_behind { (rows : List Row) (a b : List RowChange) → AreFrom rows (a ++ b) ↔ (AreFrom rows a × AreFrom (laid_over rows a) b) }
    ensures old_once { (rows : List Row) (changes : List RowChange) → IsTrue (rows_differ changes) → AllByRecursion (λ change. change.old ≡ row_at change.table change.row rows) changes → AreFrom rows changes }
    ensures laid { (rows : List Row) (changes : List RowChange) (row : Row) → Contains (laid_over rows changes) row
        → Contains rows row ⊎ ((change : RowChange) × Contains changes change × (change.table ≡ row.table) × (change.row ≡ row.number) × (change.new ≡ Some row.cells)) }
{}

/// Rows in order are the tables' rows, one table after another; a view has the rows of its table
/// that the rows with the changes laid over them answer.
pub fn rows_stand_by_tables()
    ensures found { (rows : List Row) (row : Row) → IsTrue (are_in_order rows) → Contains rows row → row_at row.table row.number rows ≡ Some row.cells }
    ensures there { (rows : List Row) (row : Row) → row_at row.table row.number rows ≡ Some row.cells → Contains rows row }
    ensures of_table { (table other : TableName) (number : RowNo) (rows : List Row) → row_at other number (rows_in table rows) ≡ (if same_table other table then row_at other number rows else None) }
    ensures viewed { (rows : List Row) (changes : List RowChange) (table : TableName) (row : Row) → IsTrue (are_in_order rows)
        → Contains (view rows changes table) row ↔ ((row.table ≡ table) × (row_at table row.number (laid_over rows changes) ≡ Some row.cells)) }
    ensures parts { (tables : List Table) (rows : List Row) → IsTrue (is_in_order table_before tables) → IsTrue (are_in_order rows) → ((row : Row) → Contains rows row → IsTrue (is_open row.table tables))
        → flat_map (λ (table : Table). rows_in table.name rows) tables ≡ rows }
{}

/// Keys differ where no row has another under its key; and where they differed, once contents are
/// laid of which none has another row under its key.
pub fn keys_differ_by_points()
    ensures each { (places : List ℕ) (table : TableName) (rows : List Row)
        → ((row other : RowNo) (key : List Cell) → HasKey places key (row_at table row rows) → ¬ IsUnderOther places key table rows row other)
        → KeysDiffer places table rows }
    ensures changed { (places : List ℕ) (table : TableName) (rows : List Row) (changes : List RowChange) → KeysDiffer places table rows
        → ((change : RowChange) (key : List Cell) (other : RowNo) → Contains changes change → change.table ≡ table → HasKey places key (row_at table change.row (laid_over rows changes)) → ¬ IsUnderOther places key table (laid_over rows changes) change.row other)
        → KeysDiffer places table (laid_over rows changes) }
    ensures laid { (places : List ℕ) (table : TableName) (rows : List Row) (finals : List Final) → KeysDiffer places table rows
        → ((final : Final) (key : List Cell) (other : RowNo) → Contains finals final → final.table ≡ table → HasKey places key (row_at table final.row (laid_all rows finals)) → ¬ IsUnderOther places key table (laid_all rows finals) final.row other)
        → KeysDiffer places table (laid_all rows finals) }
    ensures viewed { (places : List ℕ) (table : TableName) (rows : List Row) → KeysDiffer places table (rows_in table rows) ↔ KeysDiffer places table rows }
{}

/// Whether keys differ once changes of different rows are made is told before they are: where none
/// of the changes clashes, keys that differ still do; where one does, two rows have one key then;
/// and where two rows have one key then that differed before, a change clashes.
pub fn clashes_are_told_before()
    ensures stated { (places : List ℕ) (table : TableName) (rows : List Row) (changes : List RowChange) → KeysDiffer places table rows
        → ¬ Clashes places table rows changes → KeysDiffer places table (laid_over rows changes) }
    ensures broken { (places : List ℕ) (table : TableName) (rows : List Row) (changes : List RowChange) → IsTrue (rows_differ changes)
        → Clashes places table rows changes → AreDoubled places table (laid_over rows changes) }
    ensures traced { (places : List ℕ) (table : TableName) (rows : List Row) (changes : List RowChange) → places ≢ [] → KeysDiffer places table rows
        → AreDoubled places table (laid_over rows changes) → Clashes places table rows changes }
    ensures doubled { (places : List ℕ) (table : TableName) (rows : List Row) → places ≢ [] → AreDoubled places table rows → ¬ KeysDiffer places table rows }
{}

/// A content has one key: what it has at the places of a table's key columns.
pub fn contents_have_one_key()
    ensures { (places : List ℕ) (key other : List Cell) (content : Option (List Cell)) → HasKey places key content → HasKey places other content → key ≡ other }
{}

/// Once a table and its rows are gone, the rows of the other tables answer what they did, in order,
/// and keys that differed still do.
pub fn tables_go_with_their_rows()
    ensures left { (table other : TableName) (number : RowNo) (rows : List Row)
        → row_at other number (filter (λ row. not (is_in table row)) rows) ≡ (if same_table other table then None else row_at other number rows) }
    ensures left_ordered { (table : TableName) (rows : List Row) → IsTrue (are_in_order rows) → IsTrue (are_in_order (filter (λ row. not (is_in table row)) rows)) }
    ensures keys { (places : List ℕ) (table other : TableName) (rows : List Row) → KeysDiffer places other rows → KeysDiffer places other (filter (λ row. not (is_in table row)) rows) }
{}

/// A client that alone has changes meets no lock: so does whoever lays rows as client 0 while no
/// other client has a list.
pub fn lone_clients_meet_no_lock()
    ensures row { (transactions : ClientNo → List RowChange) (client : ClientNo) (table : TableName) (row : RowNo)
        → ((other : ClientNo) → other.0 ≢ client.0 → transactions other ≡ []) → ¬ IsRowLocked transactions client table row }
    ensures key { (places : List ℕ) (transactions : ClientNo → List RowChange) (client : ClientNo) (table : TableName) (key : List Cell)
        → ((other : ClientNo) → other.0 ≢ client.0 → transactions other ≡ []) → ¬ IsKeyLocked places transactions client table key }
    ensures replay { (desk : Contents) (table : TableName) (row : RowNo)
        → ((other : ClientNo) → other.0 ≢ 0 → changes_of other desk.logs ≡ []) → ¬ IsRowLocked (open_of desk) replayer table row }
{}

/// Rows as triples of table, number and cells: each form gives the other back, and both stand in
/// the same order. A row that goes, and a table's rows that do, go in both.
pub fn rows_are_triples()
    ensures back { (rows : List Row) → map of_triple (map triple_of rows) ≡ rows }
    ensures forth { (triples : List (TableName × RowNo × List Cell)) → map triple_of (map of_triple triples) ≡ triples }
    ensures ordered { (rows : List Row) → is_in_order fields_before (map (λ (row : TableName × RowNo × List Cell). place_of row.0 row.1) (map triple_of rows)) ≡ are_in_order rows }
    ensures gone { (table : TableName) (number : RowNo) (rows : List Row)
        → map triple_of (without table number rows) ≡ filter (λ (row : TableName × RowNo × List Cell). not (same_table row.0 table && (row.1.0 == number.0))) (map triple_of rows) }
    ensures left { (table : TableName) (rows : List Row)
        → map triple_of (filter (λ row. not (is_in table row)) rows) ≡ filter (λ (row : TableName × RowNo × List Cell). not (same_table row.0 table)) (map triple_of rows) }
    ensures put { (table : TableName) (number : RowNo) (cells : List Cell) (rows : List Row)
        → map triple_of (with_content table number (Some cells) rows)
        ≡ filter (λ (row : TableName × RowNo × List Cell). is_lt (slice_cmp (slice_cmp nat_cmp) (place_of row.0 row.1) (place_of table number))) (map triple_of rows)
        ++ (table, number, cells) ∷ filter (λ (row : TableName × RowNo × List Cell). is_gt (slice_cmp (slice_cmp nat_cmp) (place_of row.0 row.1) (place_of table number))) (map triple_of rows) }
{}

/// The discipline of keys of a desk: it stands where no client has changes and keys differ, as once
/// what is laid is kept, and stays as `keys_stay` says of rows and changes.
pub fn desks_stay_keyed()
    ensures quiet { (desk : Contents) → ((client : ClientNo) → open_of desk client ≡ []) → ((table : TableName) → KeysDiffer (key_of table desk.tables) table desk.rows) → IsKeyedDesk desk }
    ensures same { (old new : Contents) → IsKeyedDesk old → new.tables ≡ old.tables → new.rows ≡ old.rows → ((q : ClientNo) → open_of new q ≡ open_of old q) → IsKeyedDesk new }
    ensures opened { (old new : Contents) (table : Table) → IsKeyedDesk old
        → ((row : Row) → Contains old.rows row → IsTrue (is_open row.table old.tables))
        → ((client : ClientNo) → AllByRecursion (λ change. IsTrue (is_open change.table old.tables)) (open_of old client))
        → is_open table.name old.tables ≡ false
        → new.tables ≡ placed table_before table old.tables → new.rows ≡ old.rows → ((q : ClientNo) → open_of new q ≡ open_of old q) → IsKeyedDesk new }
    ensures dropped { (old new : Contents) (table : TableName) → IsKeyedDesk old → ((client : ClientNo) → names_table table (open_of old client) ≡ false)
        → new.tables ≡ filter (λ other. not (has_name table other)) old.tables → new.rows ≡ filter (λ row. not (is_in table row)) old.rows
        → ((q : ClientNo) → open_of new q ≡ open_of old q) → IsKeyedDesk new }
    ensures written { (old new : Contents) (client : ClientNo) (changes : List RowChange) → IsKeyedDesk old
        → AreFrom (laid_over old.rows (open_of old client)) changes
        → IsTrue (rows_differ changes)
        → ((table : TableName) → KeysDiffer (key_of table old.tables) table (laid_over old.rows (open_of old client ++ changes)))
        → ((table : TableName) (key : List Cell) → key_of table old.tables ≢ [] → MakesKey (key_of table old.tables) table key changes → ¬ IsKeyLocked (key_of table old.tables) (open_of old) client table key)
        → ((table : TableName) (row : RowNo) → IsTrue (names_row table row changes) → ¬ IsRowLocked (open_of old) client table row)
        → new.tables ≡ old.tables → new.rows ≡ old.rows → ChangesOne client (open_of old client ++ changes) (open_of old) (open_of new) → IsKeyedDesk new }
    ensures committed { (old new : Contents) (client : ClientNo) → IsKeyedDesk old
        → new.tables ≡ old.tables → new.rows ≡ laid_over old.rows (open_of old client) → ChangesOne client [] (open_of old) (open_of new) → IsKeyedDesk new }
    ensures rolled_back { (old new : Contents) (client : ClientNo) → IsKeyedDesk old
        → new.tables ≡ old.tables → new.rows ≡ old.rows → ChangesOne client [] (open_of old) (open_of new) → IsKeyedDesk new }
{}
