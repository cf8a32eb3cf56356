//! What INSERT, UPDATE and DELETE come to.
ghost use Rattle.std.specs.Prelude.{◌≡◌};
ghost use Rattle.au_modify.specs.Modifying.{refused};

use au_base::{Code, List, Name};
use au_txn::RowChange;
use std::alloc::Global;

/// What an INSERT, UPDATE or DELETE comes to before it is made, whose user may do so with its table.
#[derive(Debug, Drop)]
pub struct Modification {
    pub code: Code,
    /// The changes that it makes of rows, none where the code isn't 0.
    pub changes: List<RowChange>,
    /// The columns of its table that it references, none where the code isn't 0.
    pub named: List<Name>,
}

impl Modification {
    /// What comes of a statement that is refused: the code, and nothing else. It takes no memory.
    pub fn refused(alloc: Global, code: Code) -> Modification
        ensures { result ≡ refused code }
    {
        Modification {
            code,
            changes: List::new(alloc),
            named: List::new(alloc),
        }
    }
}
