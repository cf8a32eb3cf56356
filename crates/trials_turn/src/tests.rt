//! Several threads at one turn, and a waiter.
mod counter;
mod waiter;
mod workers;

use au_turn::{Held, Turn};
use counter::Counter;
use std::test::*;
use waiter::meet;
use workers::count_up;

#[test]
fn each_worker_gets_each_of_its_turns(rt: HostRuntime) -> Result<(), Fail> {
    // limit, what each worker adds in each of its 10,000 turns, and the total and faults at the end
    for (limit, asks, total, faults) in [
        (1_000_000, [1, 1, 1, 1], 40_000, 0),
        (1_000_000, [1, 2, 3, 4], 100_000, 0),
        (1_000_000, [5, 0, 0, 5], 100_000, 0),
        (25_000, [1, 1, 0, 1], 25_000, 5_000),
        (0, [0, 7, 0, 0], 0, 10_000),
    ] {
        let counter = count_up(&rt, rt.alloc(), Counter::new(limit), &asks, 10_000);
        assert_eq!(rt; counter.total, total, "limit {limit}");
        assert_eq!(rt; counter.faults, faults, "limit {limit}");
    }
    Ok(())
}

#[test]
fn a_waiter_sleeps_until_it_is_woken(rt: HostRuntime) -> Result<(), Fail> {
    let (turn, pass) = Turn::open(rt.alloc(), Counter::new(10))
        .ok()
        .ok_or("memory")?;
    let met = meet(&rt, turn, pass);
    assert!(rt; met.alone, "the waiter got the value while it was held");
    assert!(rt; met.slept, "the waiter used the processor while it waited");
    assert_eq!(rt; met.counter.total, 5);
    Ok(())
}

#[test]
fn one_pass_does_each_call(rt: HostRuntime) -> Result<(), Fail> {
    let (turn, mut pass) = Turn::open(rt.alloc(), Counter::new(10))
        .ok()
        .ok_or("memory")?;
    for (by, total, faults) in [(0, 0, 0), (4, 4, 0), (7, 4, 1), (6, 10, 1), (1, 10, 2)] {
        let mut counter = turn.take(&rt, &mut pass);
        counter.begin();
        let deed = counter.add(by);
        assert_eq!(rt; counter.total, total, "after {by}");
        assert_eq!(rt; counter.faults, faults, "after {by}");
        turn.give_back(&mut pass, counter, &deed);
    }
    let Ok(other) = turn.split(&mut pass) else {
        unreachable!()
    };
    turn.join(&mut pass, other);
    let counter = turn.close(&rt, pass);
    assert_eq!(rt; counter.total, 10);
    Ok(())
}
