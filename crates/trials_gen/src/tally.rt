//! How many asks of each kind the sample has.

use au_base::{Ask, Memory};
use au_gen::ask;
use std::alloc::Global;

/// How many asks there are, and how many of them put a row in, commit and roll back.
#[derive(Clone, Copy, Debug)]
pub struct Tally {
    pub asks: u64,
    pub inserts: u64,
    pub commits: u64,
    pub rollbacks: u64,
}

impl Tally {
    fn count(&mut self, ask: &Ask) {
        self.asks = self.asks.saturating_add(1);
        if let Ask::Sql(text) = ask {
            self.count_statement(text.as_str());
        }
    }

    fn count_statement(&mut self, text: &str) {
        if text.starts_with("INSERT ") {
            self.inserts = self.inserts.saturating_add(1);
        } else if text == "COMMIT" {
            self.commits = self.commits.saturating_add(1);
        } else if text == "ROLLBACK" {
            self.rollbacks = self.rollbacks.saturating_add(1);
        }
    }
}

/// The asks of the sample up to its end, or up to a million.
pub fn counted(alloc: Global, seed: u32, rows: u32) -> Result<Tally, Memory> {
    let mut found = Tally {
        asks: 0,
        inserts: 0,
        commits: 0,
        rollbacks: 0,
    };
    for place in 0..1_000_000u64 {
        match ask(alloc, seed, rows, place)? {
            Some(ask) => found.count(&ask),
            None => return Ok(found),
        }
    }
    Ok(found)
}
