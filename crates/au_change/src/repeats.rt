//! Values that stand twice.
ghost use Rattle.std.specs.Prelude.{◌≡◌, IfOk, not};
ghost use Rattle.au_change.specs.Inside.{repeats};

use au_base::Memory;
use std::alloc::Global;
use std::collections::BTreeSet;

/// Whether no two of the values are the same.
pub(crate) fn are_distinct<T: Ord>(alloc: Global, values: &[T]) -> Result<bool, Memory>
    ensures { IfOk result (λ distinct. distinct ≡ not (repeats T.eq values.now)) }
{
    let distinct: BTreeSet<&T> = values.iter().collect(alloc)?;
    Ok(distinct.len() == values.len())
}
