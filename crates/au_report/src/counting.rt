//! The counts of what is kept.
ghost use Rattle.std.specs.Prelude.{◌≡◌};
ghost use Rattle.au_report.specs.Checks.{counts_of};

use crate::counts::Counts;
use au_entries::Kept;

/// The counts of what is kept, where `used` bytes of the journal's area are used. It takes no memory.
pub fn counts_of(kept: &Kept, used: u64) -> Counts
    ensures { result ≡ counts_of kept.now used }
{
    Counts {
        users: kept.users.len() as u64,
        roles: kept.roles.len() as u64,
        tables: kept.tables.len() as u64,
        rows: kept.rows.len() as u64,
        policies: kept.policies.len() as u64,
        fga: kept.fga.len() as u64,
        records: kept.trail.len() as u64,
        instance: kept.instance,
        bytes: used,
    }
}
