//! Which candidates have a row that passes their tests.
ghost use Rattle.std.specs.Prelude.{◌≡◌, ◌||◌, Bool, IfOk, length, map};
ghost use Rattle.au_fga.specs.declared.candidates.Candidate.{Candidate as Tested};
ghost use Rattle.au_fga.specs.descent.Candidates.{answer, hits};

use crate::candidates::Candidate;
use crate::testing::one_passes;
use au_base::{Cell, List, Memory, TableName, is_same_table};
use au_expr::SessionFacts;
use std::alloc::Global;

// So many rows are tested by all candidates before the next ones are: few enough that, of most
// tables, their cells are still in the processor's cache when the next candidate reads them.
const PIECE: usize = 1_000;

/// Of each candidate, whether a touched row of its table passes its test. Nothing is allocated for a
/// row.
pub fn answers(
    alloc: Global,
    candidates: &[Candidate<'_>],
    touched: &[(TableName, List<&[Cell]>)],
    session: &SessionFacts,
) -> Result<Vec<bool>, Memory>
    ensures { IfOk result (λ met. met.items ≡ map (answer session.now touched.now) candidates.now) }
{
    let mut met = Vec::new(alloc);
    met.resize(candidates.len(), false)?;
    for (table, rows) in touched {
        mark_in_pieces(
            met.as_mut_slice(),
            candidates,
            table,
            rows.as_slice(),
            session,
        );
    }
    Ok(met)
}

// Marks the candidates that some of these rows of the table pass.
fn mark_in_pieces(
    met: &mut [bool],
    candidates: &[Candidate<'_>],
    table: &TableName,
    rows: &[&[Cell]],
    session: &SessionFacts,
)
    requires { length met.old ≡ length candidates.now }
    ensures { (before : Tested → Bool) → met.old ≡ map before candidates.now → met.new ≡ map (λ candidate. before candidate || hits session.now table.now rows.now candidate) candidates.now }
{
    let mut from = 0;
    while from < rows.len() {
        let count = (rows.len() - from).min(PIECE);
        mark(met, candidates, table, &rows[from..from + count], session);
        from += count;
    }
}

fn mark(
    met: &mut [bool],
    candidates: &[Candidate<'_>],
    table: &TableName,
    rows: &[&[Cell]],
    session: &SessionFacts,
)
    requires { length met.old ≡ length candidates.now }
    ensures { (before : Tested → Bool) → met.old ≡ map before candidates.now → met.new ≡ map (λ candidate. before candidate || hits session.now table.now rows.now candidate) candidates.now }
{
    for (place, candidate) in candidates.iter().enumerate() {
        met[place] = is_marked(met[place], candidate, table, rows, session);
    }
}

// Whether the candidate is marked already, or one of the rows hits it.
fn is_marked(
    met: bool,
    candidate: &Candidate<'_>,
    table: &TableName,
    rows: &[&[Cell]],
    session: &SessionFacts,
) -> bool
    ensures { result ≡ (met || hits session.now table.now rows.now candidate.now) }
{
    met || is_hit(candidate, table, rows, session)
}

fn is_hit(
    candidate: &Candidate<'_>,
    table: &TableName,
    rows: &[&[Cell]],
    session: &SessionFacts,
) -> bool
    ensures { result ≡ hits session.now table.now rows.now candidate.now }
{
    is_same_table(table, &candidate.name.table) && one_passes(&candidate.test, rows, session)
}
