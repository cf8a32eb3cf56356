//! Steps that are ready to be written.

use au_base::List;
use au_engine::Prepared;

/// A step that is worked out, and, where it purges, the framed image of what is kept after it, which is
/// written in the place of its frame.
#[derive(Drop)]
pub(crate) struct Ready {
    pub prepared: Prepared,
    pub image: Option<List<u8>>,
}
