//! A store.
use au_engine::Engine;
use au_io::{Clock, Disk};
use au_journal::Journal;
use std::marker::Model;

/// The state over a journal on a disk, and a clock that tells the moments of its steps.
#[derive(Drop)]
pub struct Store<D: Disk, C: Clock> {
    pub(crate) engine: Engine,
    pub(crate) journal: Journal<D>,
    pub(crate) clock: C,
    /// The last reading that the clock gave.
    pub(crate) reading: u64,
}

impl<D: Disk, C: Clock> Model for Store<D, C> {
    ghost use Rattle.au_pindex.specs.contracts.index.Index as policy_index;
    ghost use Rattle.std.specs.Coded.{codes as value_codes};
    ghost use Rattle.sql_ast.specs.contracts.expression.Expr as expression;
    ghost use Rattle.au_store.specs.Stored.{Stored, IsSound};

    ghost Value = { Stored D C };

    ghost coded = { Prim.hlevel (value_codes, expression.the_row.coded, policy_index.the_row.coded, D.code, C.code) };

    ghost view = { λ s. record {
      state = s.engine.state;
      logs = s.engine.logs;
      spare = s.engine.spare;
      room = s.engine.room;
      seats = s.engine.seats;
      index = s.engine.index;
      disk = s.journal.disk;
      seat = s.journal.seat;
      clock = s.clock;
      reading = s.reading;
    } };

    ghost invariant = { λ s. IsSound D.told (D.meaning s.journal.disk) s.journal.seat s.engine.state };
}
