//! Workers in threads, each with its own pass.
ghost use Rattle.std.specs.Prelude.{◌≡◌, ℕ, ◌<◌, List, All, length, slice_index_or};
ghost use mathlib.Core.List.{IsPrefix};
ghost use Rattle.au_turn.specs.Pass.{IsPassOf, IsIdle, WentOn, seen};
ghost use Rattle.trials_turn.specs.declared.tests.counter.Entry.{Entry};
ghost use Rattle.trials_turn.specs.declared.tests.workers.Worker.{Worker};

use super::counter::Counter;
use au_turn::{Held, Pass, Turn};
use std::alloc::Global;
use std::sync::Wait;
use std::thread;
use std::thread::Threads;

/// A worker, with its pass and what it adds in each of its turns.
pub struct Worker {
    pub pass: Pass<Counter>,
    pub by: u64,
    pub turns: u64,
}

/// One turn: the counter is taken, adds and is given back.
pub fn ask<R: Wait>(rt: &R, turn: &Turn<Counter>, pass: &mut Pass<Counter>, by: u64)
    requires own { IsPassOf turn.now pass.old }
    requires idle { IsIdle pass.old }
    ensures own { IsPassOf turn.now pass.new }
    ensures idle { IsIdle pass.new }
    ensures went { WentOn pass.old pass.new }
{
    let mut counter = turn.take(rt, pass);
    let deed = counter.add(by);
    turn.give_back(pass, counter, &deed);
}

/// All turns of one worker.
pub fn work<R: Wait>(rt: &R, turn: &Turn<Counter>, worker: &mut Worker)
    requires own { IsPassOf turn.now worker.old.pass }
    requires idle { IsIdle worker.old.pass }
    ensures own { IsPassOf turn.now worker.new.pass }
    ensures idle { IsIdle worker.new.pass }
    ensures went { WentOn worker.old.pass worker.new.pass }
{
    let by = worker.by;
    let turns = worker.turns;
    ask_often(rt, turn, &mut worker.pass, by, turns);
}

fn ask_often<R: Wait>(rt: &R, turn: &Turn<Counter>, pass: &mut Pass<Counter>, by: u64, turns: u64)
    requires own { IsPassOf turn.now pass.old }
    requires idle { IsIdle pass.old }
    ensures own { IsPassOf turn.now pass.new }
    ensures idle { IsIdle pass.new }
    ensures went { WentOn pass.old pass.new }
{
    for _number in 0..turns {
        ask(rt, turn, pass, by);
    }
}

/// The workers in threads, each with its own pass.
pub fn work_all<R: Threads + Wait + Sync>(rt: &R, turn: &Turn<Counter>, workers: &mut [Worker])
    requires { All (λ w. IsPassOf turn.now w.pass × IsIdle w.pass) workers.old }
    ensures ready { All (λ w. IsPassOf turn.now w.pass × IsIdle w.pass) workers.new }
    ensures went { (i : ℕ) (other : Worker) → i < length workers.old
        → WentOn (slice_index_or workers.old i other).pass (slice_index_or workers.new i other).pass }
{
    thread::for_each_mut(
        rt,
        workers,
        4,
        &|_, worker: &mut Worker|
            requires { IsPassOf turn.now worker.old.pass × IsIdle worker.old.pass }
            ensures ready { IsPassOf turn.entry.now worker.new.pass × IsIdle worker.new.pass }
            ensures went { WentOn worker.old.pass worker.new.pass }
        { work(rt, turn, worker) },
    );
}

// Splits off a pass for each worker, as long as there is memory.
fn hire(
    turn: &Turn<Counter>,
    pass: &mut Pass<Counter>,
    workers: &mut Vec<Worker>,
    asks: &[u64],
    turns: u64,
)
    requires own { IsPassOf turn.now pass.old }
    requires idle { IsIdle pass.old }
    requires all { All (λ w. IsPassOf turn.now w.pass × IsIdle w.pass) workers.old.items }
    ensures own { IsPassOf turn.now pass.new }
    ensures idle { IsIdle pass.new }
    ensures seen { seen pass.new ≡ seen pass.old }
    ensures all { All (λ w. IsPassOf turn.now w.pass × IsIdle w.pass) workers.new.items }
{
    for by in asks {
        if workers.reserve(1).is_err() {
            return;
        }
        let Ok(other) = turn.split(pass) else {
            return;
        };
        workers.push_reserved(Worker {
            pass: other,
            by: *by,
            turns,
        });
    }
}

// Joins the workers' passes to this one.
fn gather(turn: &Turn<Counter>, pass: &mut Pass<Counter>, mut workers: Vec<Worker>)
    requires own { IsPassOf turn.now pass.old }
    requires idle { IsIdle pass.old }
    requires all { All (λ w. IsPassOf turn.now w.pass × IsIdle w.pass) workers.items }
    ensures own { IsPassOf turn.now pass.new }
    ensures idle { IsIdle pass.new }
    ensures seen { IsPrefix (seen pass.old) (seen pass.new) }
{
    while let Some(worker) = workers.pop() {
        let Worker {
            pass: other,
            by: _,
            turns: _,
        } = worker;
        turn.join(pass, other);
    }
    workers.destroy_empty();
}

/// Opens a turn over the counter, lets the workers have their turns, and closes it.
pub fn count_up<R: Threads + Wait + Sync>(
    rt: &R,
    alloc: Global,
    counter: Counter,
    asks: &[u64],
    turns: u64,
) -> Counter
    ensures { (history : List Entry) × IsPrefix (⟦<Counter as Held>⟧.first counter) history
        × ⟦<Counter as Held>⟧.stands result history }
{
    match Turn::open(alloc, counter) {
        Ok((turn, mut pass)) => {
            let mut workers = Vec::new(alloc);
            hire(&turn, &mut pass, &mut workers, asks, turns);
            work_all(rt, &turn, workers.as_mut_slice());
            gather(&turn, &mut pass, workers);
            turn.close(rt, pass)
        }
        Err((counter, _)) => counter,
    }
}
