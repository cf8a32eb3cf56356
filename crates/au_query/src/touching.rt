//! The rows that take part in what a query gives.
ghost use Rattle.std.specs.Prelude.{◌≡◌, ◌==◌, ◌||◌, IfOk, OnOk, filter, map};
ghost use Rattle.std.specs.List.{list_any};
ghost use Rattle.std.specs.Ordering.{nat_cmp};
ghost use Rattle.std.specs.BTreeSet.{contains};
ghost use Rattle.au_base.specs.declared.numbers.RowNo.{RowNo as Number};
ghost use Rattle.au_query.specs.Answers.{places_of, stands_in, takes_part, touched_by};
ghost use Rattle.au_query.specs.Combos.{lines, rows_of};

use crate::Source;
use crate::combo::Combo;
use crate::tables::{is_first, places};
use au_base::{Cell, List, Memory, RowNo, TableName};
use std::alloc::Global;
use std::collections::BTreeSet;

/// Of each table of FROM, the rows that take part in one of the combinations, by number.
pub fn touched(
    alloc: Global,
    combos: &[Combo<'_>],
    sources: &[Source<'_>],
) -> Result<List<(TableName, List<RowNo>)>, Memory>
    ensures { IfOk result (λ touched. touched ≡ touched_by combos.now sources.now) }
{
    let mut touched = List::new(alloc);
    for (range, source) in sources.iter().enumerate() {
        if is_first(sources, range, &source.table) {
            touched.push(touched_table(alloc, combos, sources, source)?)?;
        }
    }
    Ok(touched)
}

// The table, and the numbers of its rows that take part, at whatever places of FROM.
fn touched_table(
    alloc: Global,
    combos: &[Combo<'_>],
    sources: &[Source<'_>],
    source: &Source<'_>,
) -> Result<(TableName, List<RowNo>), Memory>
    ensures { IfOk result (λ touched. touched ≡ (source.now.table, map (λ line. line.0) (filter (takes_part combos.now (places_of source.now.table sources.now)) (rows_of source.now)))) }
{
    let places = places(alloc, sources, &source.table)?;
    let numbers = touched_rows(alloc, combos, &places, source.rows.as_slice())?;
    Ok((source.table.clone()?, numbers))
}

fn touched_rows(
    alloc: Global,
    combos: &[Combo<'_>],
    places: &[usize],
    rows: &[(RowNo, &[Cell])],
) -> Result<List<RowNo>, Memory>
    ensures { IfOk result (λ numbers. numbers ≡ map (λ line. line.0) (filter (takes_part combos.now places.now) (lines rows.now))) }
{
    let there = numbers_at(alloc, combos, places)?;
    let mut numbers = List::new(alloc);
    for (number, _) in rows {
        if there.contains(&number.0) {
            numbers.push(*number)?;
        }
    }
    Ok(numbers)
}

fn numbers_at(
    alloc: Global,
    combos: &[Combo<'_>],
    places: &[usize],
) -> Result<BTreeSet<u32>, Memory>
    ensures { IfOk result (λ there. (number : Number) → contains nat_cmp there number.0 ≡ list_any (stands_in places.now number) combos.now) }
{
    let mut there = BTreeSet::new(alloc);
    for combo in combos {
        add_all(&mut there, combo, places)?;
    }
    Ok(there)
}

// Adds the numbers of the combination's rows at the places.
fn add_all(there: &mut BTreeSet<u32>, combo: &Combo<'_>, places: &[usize]) -> Result<(), Memory>
    ensures { OnOk result ((number : Number) → contains nat_cmp there.new number.0 ≡ (stands_in places.now number combo.now || contains nat_cmp there.old number.0)) }
{
    for place in places {
        if let Some((number, _)) = combo.get(*place) {
            add(there, number)?;
        }
    }
    Ok(())
}

fn add(there: &mut BTreeSet<u32>, number: RowNo) -> Result<(), Memory>
    ensures { OnOk result ((other : Number) → contains nat_cmp there.new other.0 ≡ ((number.0 == other.0) || contains nat_cmp there.old other.0)) }
{
    there.insert(number.0)?;
    Ok(())
}
