//! The texts that are made for a record's fields.

use au_base::Text;

/// The fields of a record that it can't lend.
#[derive(Debug, Drop)]
pub struct Made {
    /// The session's number.
    pub session: Text,
    /// The record's place in the session.
    pub entry: Text,
    /// The statement's place in the session.
    pub statement: Text,
    /// The moment, 26 bytes of ASCII.
    pub moment: [u8; 26],
    /// The system privileges.
    pub used: Text,
    /// The audit policies.
    pub policies: Text,
    /// The return code.
    pub code: Text,
}
