//! What comes of a query.
ghost use Rattle.std.specs.Prelude.{◌≡◌};
ghost use Rattle.au_query.specs.Answers as spec;

use au_base::{Code, List, Name, Reply, RowNo, TableName};
use std::alloc::Global;

/// What comes of a query: its code and its reply; the rows that take part in a combination which
/// passes, and the columns that the query names, both for each table of FROM in order, by row number
/// and in the order of the columns. Where the code isn't 0, there are neither rows nor columns.
#[derive(Debug, Drop, PartialEq, Eq)]
pub struct Selected {
    pub code: Code,
    pub reply: Reply,
    pub touched: List<(TableName, List<RowNo>)>,
    pub named: List<(TableName, List<Name>)>,
}

impl Selected {
    /// A query that is refused by this code.
    pub fn refused(alloc: Global, code: Code) -> Selected
        ensures { result ≡ spec.refused code }
    {
        Selected {
            code,
            reply: Reply {
                code,
                columns: List::new(alloc),
                count: 0,
                rows: List::new(alloc),
            },
            touched: List::new(alloc),
            named: List::new(alloc),
        }
    }
}
