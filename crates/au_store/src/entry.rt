//! What a store leaves in its history.
use au_base::{Ask, ClientNo, Reply};
use au_engine::Engine;
use std::marker::Model;

/// A state. Contracts see it without the room that is reserved beside it.
#[derive(Drop)]
pub struct Whole {
    engine: Engine,
}

impl Model for Whole {
    ghost use Rattle.std.specs.Coded.{codes as value_codes};
    ghost use Rattle.sql_ast.specs.contracts.expression.Expr as expression;
    ghost use Rattle.au_step.specs.State.{State};

    ghost Value = { State };

    ghost coded = { Prim.hlevel (value_codes, expression.the_row.coded) };

    ghost view = { λ whole. whole.engine.state };
}

/// What a store left in its history. No code makes entries: contracts alone speak of them.
#[derive(Drop)]
pub enum Entry {
    /// A store was opened in this state, with this used length and limit of its journal, on a disk
    /// that had failed so often. Whether a step was in doubt then.
    Opened {
        state: Whole,
        used: u64,
        limit: u32,
        faults: u64,
        doubtful: bool,
    },
    /// A client's ask was given a reply at this reading of the clock.
    Stepped {
        client: ClientNo,
        ask: Ask,
        reading: u64,
        reply: Reply,
    },
    /// A client's session was ended.
    Abandoned(ClientNo),
    /// The disk failed at a client's ask, and has failed so often then. The step is in doubt since, where
    /// it read the clock; where it couldn't mend an earlier step's doubt there is no reading.
    Faulted {
        client: ClientNo,
        ask: Ask,
        reading: Option<u64>,
        count: u64,
    },
    /// A client's ask at this reading needed so many bytes, over the limit.
    Filled {
        client: ClientNo,
        ask: Ask,
        reading: u64,
        needed: u64,
    },
}
