//! One holder and one waiter.
ghost use Rattle.std.specs.Prelude.{◌≡◌, All};
ghost use Rattle.au_turn.specs.Pass.{IsPassOf, IsIdle};

use super::counter::Counter;
use super::workers::ask;
use au_turn::{Pass, Turn};
use std::sync::Wait;
use std::sync::atomic::AtomicU64;
use std::sync::atomic::Ordering::SeqCst;
use std::test::Fail;
use std::thread;
use std::thread::Threads;
use std::time::{Clock, CpuClock, Duration};

/// What was seen of the two.
#[derive(Drop)]
pub struct Meeting {
    pub alone: bool,
    pub slept: bool,
    pub counter: Counter,
}

// The holder keeps the value until the waiter has waited for it; the waiter comes while it is held.
struct Side {
    pass: Pass<Counter>,
    holds: bool,
    good: bool,
}

// What the two tell each other.
#[derive(Drop)]
struct Signs {
    held: AtomicU64,
    coming: AtomicU64,
    got: AtomicU64,
}

// Waits for the sign, for some ten seconds at most.
fn look_out<R: Clock>(rt: &R, sign: &AtomicU64) {
    for _look in 0..10_000 {
        if sign.load(SeqCst) != 0 {
            return;
        }
        thread::sleep(rt, Duration::from_millis(1));
    }
}

fn hold<R: Wait + Clock>(rt: &R, turn: &Turn<Counter>, side: &mut Side, signs: &Signs)
    requires { IsPassOf turn.now side.old.pass × IsIdle side.old.pass }
    ensures { IsPassOf turn.now side.new.pass × IsIdle side.new.pass }
{
    let mut counter = turn.take(rt, &mut side.pass);
    signs.held.store(1, SeqCst);
    look_out(rt, &signs.coming);
    thread::sleep(rt, Duration::from_millis(400));
    side.good = signs.got.load(SeqCst) == 0;
    let deed = counter.add(2);
    turn.give_back(&mut side.pass, counter, &deed);
}

fn wait<R: Wait + Clock + CpuClock>(rt: &R, turn: &Turn<Counter>, side: &mut Side, signs: &Signs)
    requires { IsPassOf turn.now side.old.pass × IsIdle side.old.pass }
    ensures { IsPassOf turn.now side.new.pass × IsIdle side.new.pass }
{
    look_out(rt, &signs.held);
    let before = rt.thread_cpu_time();
    signs.coming.store(1, SeqCst);
    ask(rt, turn, &mut side.pass, 3);
    signs.got.store(1, SeqCst);
    let after = rt.thread_cpu_time();
    side.good = match (before, after) {
        (Ok(before), Ok(after)) => after.saturating_sub(before) < Duration::from_millis(200),
        _ => false,
    };
}

/// The holder and the waiter, each in a thread.
pub fn meet<R: Threads + Wait + Clock + CpuClock + Sync>(
    rt: &R,
    turn: Turn<Counter>,
    mut pass: Pass<Counter>,
) -> Meeting
    requires { IsPassOf turn pass × IsIdle pass }
{
    let Ok(other) = turn.split(&mut pass) else {
        unreachable!()
    };
    let signs = Signs {
        held: AtomicU64::new(0),
        coming: AtomicU64::new(0),
        got: AtomicU64::new(0),
    };
    let mut sides = [side_of(pass, true), side_of(other, false)];
    both(rt, &turn, &mut sides, &signs);
    let [holder, waiter] = sides;
    let Side {
        mut pass,
        holds: _,
        good: alone,
    } = holder;
    let Side {
        pass: other,
        holds: _,
        good: slept,
    } = waiter;
    turn.join(&mut pass, other);
    let counter = turn.close(rt, pass);
    Meeting {
        alone,
        slept,
        counter,
    }
}

fn side_of(pass: Pass<Counter>, holds: bool) -> Side
    ensures { result.pass ≡ pass }
{
    Side {
        pass,
        holds,
        good: false,
    }
}

fn both<R: Threads + Wait + Clock + CpuClock + Sync>(
    rt: &R,
    turn: &Turn<Counter>,
    sides: &mut [Side],
    signs: &Signs,
)
    requires { All (λ s. IsPassOf turn.now s.pass × IsIdle s.pass) sides.old }
    ensures { All (λ s. IsPassOf turn.now s.pass × IsIdle s.pass) sides.new }
{
    thread::for_each_mut(
        rt,
        sides,
        2,
        &|_, side: &mut Side|
            requires { IsPassOf turn.now side.old.pass × IsIdle side.old.pass }
            ensures { IsPassOf turn.entry.now side.new.pass × IsIdle side.new.pass }
        { part(rt, turn, side, signs) },
    );
}

// One side's part.
fn part<R: Wait + Clock + CpuClock>(rt: &R, turn: &Turn<Counter>, side: &mut Side, signs: &Signs)
    requires { IsPassOf turn.now side.old.pass × IsIdle side.old.pass }
    ensures { IsPassOf turn.now side.new.pass × IsIdle side.new.pass }
{
    if side.holds {
        hold(rt, turn, side, signs);
    } else {
        wait(rt, turn, side, signs);
    }
}
