//! What clients ask for.

use crate::Text;

/// What a client asks for.
#[derive(Debug, Drop, PartialEq, Eq)]
pub enum Ask {
    /// To be logged on as SYS with no password. Only a script can ask so.
    Local,
    /// To be logged on. The user's name is read as an identifier.
    Logon { user: Text, password: Text },
    /// To have a statement done.
    Sql(Text),
    /// To be logged off.
    Logoff,
}
