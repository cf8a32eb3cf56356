//! How many combinations there are, and whether there are any.
ghost use Rattle.std.specs.Prelude.{◌≡◌, ◌≤◌, ◌<◌, ◌*◌, [], ℕ, MatchOption, true};
ghost use Rattle.au_base.specs.Limits as limits;
ghost use Rattle.au_query.specs.Combos.{product, product_size, views};

use crate::Source;
use au_base::limits::COMBINATIONS;

/// How many combinations there are. `None` where they are more than a query goes over.
pub fn combinations(sources: &[Source<'_>]) -> Option<u64>
    ensures { MatchOption result (limits.COMBINATIONS < product_size (views sources.now)) (λ size. (size ≡ product_size (views sources.now)) × (size ≤ limits.COMBINATIONS)) }
{
    match sources.split_first() {
        None => Some(1),
        Some((source, rest)) => times(source.rows.len(), combinations(rest)),
    }
}

// Where the rest has too many, no row leaves none.
fn times(rows: usize, rest: Option<u64>) -> Option<u64>
    ensures some { (size : ℕ) → MatchOption rest (limits.COMBINATIONS < size) (λ n. (n ≡ size) × (n ≤ limits.COMBINATIONS))
        → MatchOption result (limits.COMBINATIONS < rows * size) (λ n. (n ≡ rows * size) × (n ≤ limits.COMBINATIONS)) }
{
    let rest = match rest {
        Some(rest) => rest,
        None if rows == 0 => return Some(0),
        None => return None,
    };
    match rest.checked_mul(rows as u64) {
        Some(size) if size <= COMBINATIONS => Some(size),
        _ => None,
    }
}

/// Whether one of the tables has no row. There is no combination then.
#[tactic(auto, using(crate::proofs::Nothing::none_of_none, crate::proofs::Nothing::none_behind))]
pub fn has_empty_table(sources: &[Source<'_>]) -> bool
    ensures { result ≡ true → product (views sources.now) ≡ [] }
{
    match sources.split_first() {
        None => false,
        Some((source, rest)) => source.rows.is_empty() || has_empty_table(rest),
    }
}
