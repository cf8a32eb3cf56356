//! The asks of the sample.
ghost use Rattle.std.specs.Prelude.{◌≡◌, ◌<◌, IfOk};
ghost use Rattle.std.specs.List.{slice_get};
ghost use Rattle.au_gen.specs.Sample.{ask_of, closing, opening};
ghost use Rattle.au_gen.specs.descent.Places.{row_ask_at};

use crate::statements;
use au_base::{Ask, Memory};
use std::alloc::Global;

// How many asks stand before those for rows.
const OPENING: u64 = 5;

/// The ask at place `n`, from 0, of the sample over `rows` rows: SYS is logged on by `Local`; the table
/// PAY is made, with an audit policy of its inserts, which is enabled, and a fine-grained policy of its
/// high salaries; then the rows from 1 on are put in, the salaries by the seed, and each hundred is
/// committed, each tenth hundred rolled back; then all is committed, and the high salaries are counted.
/// `None` from the end on. It takes the same time for each ask, and keeps nothing.
pub fn ask(alloc: Global, seed: u32, rows: u32, n: u64) -> Result<Option<Ask>, Memory>
    ensures { IfOk result (λ found. found ≡ ask_of seed rows n) }
{
    if n < OPENING {
        return opening_ask(alloc, n);
    }
    let place = n - OPENING;
    let rows = u64::from(rows);
    let asks = rows + rows / 100;
    if place < asks {
        return Ok(Some(row_ask(alloc, seed, place)?));
    }
    closing_ask(alloc, place - asks)
}

fn opening_ask(alloc: Global, place: u64) -> Result<Option<Ask>, Memory>
    ensures { IfOk result (λ found. found ≡ slice_get opening place) }
{
    match place {
        0 => Ok(Some(Ask::Local)),
        1 => Ok(Some(statements::table(alloc)?)),
        2 => Ok(Some(statements::policy(alloc)?)),
        3 => Ok(Some(statements::enabling(alloc)?)),
        4 => Ok(Some(statements::high(alloc)?)),
        _ => Ok(None),
    }
}

// Each hundred of rows takes 101 places.
fn row_ask(alloc: Global, seed: u32, place: u64) -> Result<Ask, Memory>
    requires { place < 4_337_916_967 }
    ensures { IfOk result (λ ask. ask ≡ row_ask_at seed place) }
{
    let before = place / 101 * 100;
    let behind = place % 101;
    if behind == 100 {
        return statements::ending(alloc, before + 100);
    }
    statements::insert(alloc, seed, before + behind + 1)
}

fn closing_ask(alloc: Global, place: u64) -> Result<Option<Ask>, Memory>
    ensures { IfOk result (λ found. found ≡ slice_get closing place) }
{
    match place {
        0 => Ok(Some(statements::commit(alloc)?)),
        1 => Ok(Some(statements::count(alloc)?)),
        _ => Ok(None),
    }
}
