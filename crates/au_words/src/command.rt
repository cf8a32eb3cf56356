//! The commands of the program.

use au_base::Text;

/// What the words after the program's name ask for.
#[derive(Debug, Drop, PartialEq, Eq)]
pub enum Command {
    /// Make a store whose SYS has this password, and whose journal areas have this limit, in bytes.
    Init {
        password: Text,
        limit: u32,
    },
    /// Do what a script says.
    Run,
    /// Serve at this port with this many workers, until that many connections have been served.
    /// Where `connections` is 0, serve until the lobby is closed.
    Serve {
        port: u16,
        workers: u32,
        connections: u32,
    },
    /// Write the trail as comma-separated values.
    Trail,
    /// Write the counts of what is kept.
    Check,
    /// Write the sample of this seed with so many rows.
    Sample {
        seed: u32,
        rows: u32,
    },
}
