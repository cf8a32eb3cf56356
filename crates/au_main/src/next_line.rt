//! The lines of a script, one after another.
ghost use Rattle.std.specs.Prelude.{◌≡◌, ◌≤◌, IfOk, OnErr};
ghost use Rattle.au_main.specs.Lines.{script_limit};
ghost use Rattle.au_main.specs.descent.NextLine.{NextLine, IsNextCause, Takes};

use crate::line::Line;
use crate::refill::Refill;
use crate::stretch::Pending;
use au_base::Memory;
use au_base::limits::LINE_BYTES;
use au_io::Source;
use std::alloc::Global;

/// The next line, of what is pending and what the source has left.
pub(crate) fn next_line<S: Source>(
    alloc: Global,
    source: &mut S,
    pending: &mut Pending,
) -> Result<Line, Memory>
    ensures line { IfOk result (NextLine pending.old pending.new (S.left source.old) (S.left source.new)) }
    ensures cause { IfOk result (IsNextCause (S.faults source.old) (S.faults source.new)) }
    ensures within { pending.new.taken ≤ script_limit }
    ensures memory { OnErr result (S.faults source.new ≡ S.faults source.old) }
    ensures took { OnErr result (Takes (S.left source.old) (S.left source.new)) }
{
    let mut line = Vec::new(alloc);
    loop {
        if pending.move_line(&mut line)? {
            return Ok(Line::Ended(line));
        }
        // a CR may stand before the end
        if line.len() > LINE_BYTES + 1 {
            return Ok(Line::Overlong);
        }
        match pending.refill(source) {
            Refill::More => {}
            Refill::End if line.is_empty() => return Ok(Line::End),
            Refill::End => return Ok(Line::Last(line)),
            Refill::Failed => return Ok(Line::Failed),
            Refill::Beyond => return Ok(Line::Beyond),
        }
    }
}
