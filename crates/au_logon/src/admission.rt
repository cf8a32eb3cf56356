//! What is decided of logons.

use au_base::{Code, List, Name, Privilege};

/// What is decided of a logon.
#[derive(Debug, Drop, PartialEq, Eq)]
pub struct Admission {
    pub code: Code,
    /// The system privileges that made it possible: CREATE SESSION, or none.
    pub used: List<Privilege>,
    /// The user whom it names, by whom a refused one is recorded too; `?` where it names nobody.
    pub user: Name,
}
