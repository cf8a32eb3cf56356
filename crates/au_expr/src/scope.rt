//! What the names of columns are looked up in.

use au_base::{Column, List, Name};

/// The ranges of a statement, in the order of FROM: each one's name, that of the table or its alias,
/// with its columns. Two ranges may have one name.
#[derive(Debug, Drop)]
pub struct Scope {
    pub ranges: List<(Name, List<Column>)>,
}
