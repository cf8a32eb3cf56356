//! Replies without rows.
ghost use Rattle.std.specs.Prelude.{◌≡◌};
ghost use Rattle.au_ruling.specs.Rulings.{code_reply};

use au_base::{Code, List, Reply};
use std::alloc::Global;

/// A code alone.
pub(crate) fn code_reply(alloc: Global, code: Code) -> Reply
    ensures { result ≡ code_reply code }
{
    Reply {
        code,
        columns: List::new(alloc),
        count: 0,
        rows: List::new(alloc),
    }
}
