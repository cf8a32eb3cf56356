//! The text of a check.
ghost use Rattle.std.specs.Prelude.{◌≡◌, ◌++◌, IfOk, OnOk, codes};
ghost use Rattle.std.specs.String.{string_bytes};
ghost use Rattle.au_report.specs.Checks.{check_text, counted};

use crate::counts::Counts;
use au_base::Memory;
use std::alloc::Global;

/// The nine lines of a check: `users`, `roles`, `tables`, `rows`, `policies`, `fga`, `records`,
/// `instance` and `bytes`, each with a space, its number and LF. It is some 200 bytes long at most.
pub fn check_text(alloc: Global, counts: &Counts) -> Result<Vec<u8>, Memory>
    ensures { IfOk result (λ text. text.items ≡ check_text counts.now) }
{
    let mut text = String::new(alloc);
    push_objects(alloc, &mut text, counts)?;
    push_audit(alloc, &mut text, counts)?;
    push_line(alloc, &mut text, "instance", u64::from(counts.instance))?;
    push_line(alloc, &mut text, "bytes", counts.bytes)?;
    Ok(text.into_bytes())
}

fn push_objects(alloc: Global, text: &mut String, counts: &Counts) -> Result<(), Memory>
    ensures { OnOk result (string_bytes text.new ≡ string_bytes text.old
        ++ counted (codes "users") counts.now.users
        ++ counted (codes "roles") counts.now.roles
        ++ counted (codes "tables") counts.now.tables
        ++ counted (codes "rows") counts.now.rows) }
{
    push_line(alloc, text, "users", counts.users)?;
    push_line(alloc, text, "roles", counts.roles)?;
    push_line(alloc, text, "tables", counts.tables)?;
    push_line(alloc, text, "rows", counts.rows)
}

fn push_audit(alloc: Global, text: &mut String, counts: &Counts) -> Result<(), Memory>
    ensures { OnOk result (string_bytes text.new ≡ string_bytes text.old
        ++ counted (codes "policies") counts.now.policies
        ++ counted (codes "fga") counts.now.fga
        ++ counted (codes "records") counts.now.records) }
{
    push_line(alloc, text, "policies", counts.policies)?;
    push_line(alloc, text, "fga", counts.fga)?;
    push_line(alloc, text, "records", counts.records)
}

/// Adds a line of a word, a space and a number.
pub(crate) fn push_line(
    alloc: Global,
    text: &mut String,
    word: &str,
    number: u64,
) -> Result<(), Memory>
    ensures { OnOk result (string_bytes text.new ≡ string_bytes text.old ++ counted word.now number) }
{
    let digits = number.to_string(alloc)?;
    text.push_str(word)?;
    text.push_str(" ")?;
    text.push_str(digits.as_str())?;
    text.push_str("\n")?;
    Ok(())
}
