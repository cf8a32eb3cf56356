//! Steps that are prepared.

ghost use Rattle.std.specs.Prelude.{◌≡◌, Option, is_some, option_map};
ghost use Rattle.std.specs.Option.{option_copied};
ghost use Rattle.rec_codec.specs.declared.frame.Frame.{Frame};
ghost use Rattle.rec_codec.specs.Frames.{spelled};
ghost use Rattle.au_engine.specs.Prepared.{logged_of};
ghost use Rattle.au_step.specs.Framing.{framed_option};

use crate::framing::body_in;
use crate::outcome::SessionChange;
use au_base::{List, Name, Reply, Stamp};
use au_entries::{Change, Record};
use au_kept::Staged;
use au_pindex::StagedIndex;

/// A step that is worked out and not made yet: what it makes otherwise, ready to be made without
/// memory.
#[derive(Drop)]
pub struct Prepared {
    pub reply: Reply,
    pub sessions: SessionChange,
    /// The instance's results of conditions after the step, where it doesn't leave them as they are.
    pub results: Option<List<(Name, bool)>>,
    /// So many of the changes, in front, are what becomes of the rows that are committed.
    pub finals: usize,
    /// What it changes of what is kept, in the order in which it happens.
    pub changes: List<Change>,
    /// The other changes, ready to be made.
    pub staged: Staged,
    /// The changes, ready to be made of the index of the audit policies. `None` where it has to be made
    /// anew.
    pub index: Option<StagedIndex>,
    /// Of a purge: the records stamped before this moment go, or all of them where it names none.
    pub purge: Option<Option<Stamp>>,
    /// The records that it leaves.
    pub records: List<Record>,
    /// The last stamp after the step.
    pub last: Stamp,
    /// The framed bytes of the frame that it writes, where it leaves something to be kept.
    pub framed: Option<List<u8>>,
}

impl Prepared {
    /// The body of the frame that the step writes. `None` where it writes none.
    pub fn body(&self) -> Option<&[u8]>
        ensures { (frame : Option Frame) → self.now.framed ≡ framed_option frame → option_copied result ≡ option_map spelled frame }
    {
        match &self.framed {
            None => None,
            Some(bytes) => Some(body_in(bytes.as_slice())),
        }
    }

    /// The same body as framed bytes: its length in eight bytes, the body, and a closed gate.
    pub fn framed(&self) -> Option<&[u8]>
        ensures { option_copied result ≡ self.now.framed }
    {
        match &self.framed {
            None => None,
            Some(bytes) => Some(bytes.as_slice()),
        }
    }

    /// Whether the step purges records of the trail.
    pub fn purges(&self) -> bool
        ensures { result ≡ is_some (logged_of self.now).purge }
    {
        self.purge.is_some()
    }
}
