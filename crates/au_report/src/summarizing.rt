//! The text of a sample's summary.
ghost use Rattle.std.specs.Prelude.{◌≡◌, IfOk};
ghost use Rattle.au_report.specs.Summaries.{summary_text};

use crate::checking::push_line;
use crate::summary::Summary;
use au_base::Memory;
use std::alloc::Global;

/// The five lines of a sample's summary: `asks`, `rows`, `high`, `records` and `fine`, each with a space,
/// its number and LF. It is some 130 bytes long at most.
pub fn summary_text(alloc: Global, summary: &Summary) -> Result<Vec<u8>, Memory>
    ensures { IfOk result (λ text. text.items ≡ summary_text summary.now) }
{
    let mut text = String::new(alloc);
    push_line(alloc, &mut text, "asks", summary.asks)?;
    push_line(alloc, &mut text, "rows", summary.rows)?;
    push_line(alloc, &mut text, "high", summary.high)?;
    push_line(alloc, &mut text, "records", summary.records)?;
    push_line(alloc, &mut text, "fine", summary.fine)?;
    Ok(text.into_bytes())
}
