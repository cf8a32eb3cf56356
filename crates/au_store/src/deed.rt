//! What a holder of a store did with it.
use au_base::{Ask, ClientNo, Said};

/// What a holder of a store did with it. It tells the entries that this left in the history.
#[derive(Drop)]
pub enum Deed<'a> {
    /// Nothing that leaves an entry.
    Nothing,
    /// A step: what was said to a client's ask, and the clock's reading.
    Stepped {
        client: ClientNo,
        ask: &'a Ask,
        said: &'a Said,
        reading: u64,
    },
    /// A session was ended.
    Abandoned(ClientNo),
}
