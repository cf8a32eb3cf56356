//! Where a row's versions lie.
ghost use Rattle.std.specs.Prelude.{◌≡◌};
ghost use Rattle.au_rows.specs.Held.{is_by};
ghost use Rattle.au_rows.specs.Blocks.{place_past};
ghost use Rattle.au_rows.specs.Kept.{place_from, place_at};

use au_base::{ClientNo, RowNo};

/// Where a row's versions lie.
#[derive(Clone, Copy, Debug)]
pub struct Place {
    /// The number of the row's table.
    pub table: u32,
    pub number: RowNo,
    /// The version that is committed.
    pub settled: Option<u32>,
    /// The client with unsettled changes of the row.
    pub owner: Option<ClientNo>,
    /// The version that its owner sees.
    pub newest: Option<u32>,
}

impl Place {
    /// Whether it is the place of this row.
    pub(crate) fn is_this(&self, table: usize, number: RowNo) -> bool
        ensures { result ≡ place_at table number self.now }
    {
        self.table as usize == table && self.number.0 == number.0
    }

    /// Whether it is the place of this row or of a later one.
    pub(crate) fn is_from(&self, table: usize, number: RowNo) -> bool
        ensures { result ≡ place_from table number self.now }
    {
        table < self.table as usize || self.table as usize == table && number.0 <= self.number.0
    }

    /// Whether it is the place of a row behind this one.
    pub(crate) fn is_past(&self, table: usize, number: RowNo) -> bool
        ensures { result ≡ place_past table number self.now }
    {
        table < self.table as usize || self.table as usize == table && number.0 < self.number.0
    }

    /// Whether the client has unsettled changes of the row.
    pub(crate) fn is_by(&self, by: ClientNo) -> bool
        ensures { result ≡ is_by by self.now.owner }
    {
        match self.owner {
            Some(owner) => owner.0 == by.0,
            None => false,
        }
    }
}
