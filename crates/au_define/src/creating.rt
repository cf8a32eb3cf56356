//! By what tables are created.

/// Which of the two system privileges by which tables are created a user holds.
#[derive(Clone, Copy)]
pub struct Creating {
    /// CREATE TABLE.
    pub own: bool,
    /// CREATE ANY TABLE.
    pub any: bool,
}
