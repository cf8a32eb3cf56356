//! Results of conditions that are kept.

use au_base::{List, Name};

/// The results that were kept of the conditions of policies, by the names of these.
#[derive(Debug, Drop, PartialEq, Eq)]
pub struct KeptResults {
    /// Those of a session.
    pub session: List<(Name, bool)>,
    /// Those of the instance.
    pub instance: List<(Name, bool)>,
}
