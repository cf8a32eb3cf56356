//! Answers to whether a user may do something.

use au_base::{Code, Privilege};

/// Whether a user may do something with a table, and by what.
#[derive(Clone, Copy, Debug, PartialEq, Eq)]
pub enum Allowed {
    /// The user owns the table.
    Owner,
    /// An object privilege suffices, or the rule of a built-in table. No system privilege is used.
    Object,
    /// The system privilege is used.
    System(Privilege),
    /// The user may not.
    Refused(Code),
}
