//! Sleepers that are told.

use std::alloc::Global;
use std::sync::Wait;
use std::sync::atomic::{AtomicU64, Ordering};
use std::test::Fail;
use std::thread;
use std::thread::Threads;
use turn_clock::TurnClock;

/// How often each is woken.
const TIMES: u64 = 10_000;

/// How many turns a sleeper waits for.
const LONG: u64 = 1_000;

/// One of two threads that hand a ball to each other: it waits for it, and tells the other. Returns how many turns passed meanwhile.
fn play<R: Wait>(rt: &R, clock: &TurnClock, ball: &AtomicU64, me: usize) -> u64 {
    let mut passed: u64 = 0;
    for round in 0..TIMES {
        let mine = round.saturating_mul(2).saturating_add(me as u64);
        for _ in rt.forever() {
            clock.listen(me);
            if ball.load(Ordering::SeqCst) == mine {
                break;
            }
            passed = passed.saturating_add(clock.rest(rt, me, LONG));
        }
        ball.fetch_add(1, Ordering::SeqCst);
        clock.tell(1 - me.min(1));
    }
    clock.leave(rt);
    passed
}

fn played<R: Threads + Wait + Sync>(rt: &R, alloc: Global) -> Option<(u64, u64)> {
    let clock = TurnClock::new(alloc, 2).ok()?;
    let (clock, ball) = (&clock, &AtomicU64::new(0));
    thread::scope(thread::scope_env(), rt, |scope| -> Option<(u64, u64)> {
        let first = scope.spawn(move || play(rt, clock, ball, 0)).ok()?;
        let second = scope.spawn(move || play(rt, clock, ball, 1)).ok()?;
        Some((first.join(rt), second.join(rt)))
    })
}

/// Two threads wake each other ten thousand times, each just before or just after the other goes to sleep.
#[test]
fn two_that_wake_each_other(rt: HostRuntime) -> Result<(), Fail> {
    assert_eq!(rt; played(&rt, rt.alloc()), Some((0, 0)));
    Ok(())
}

/// Who was told before it goes to sleep doesn't, until it has listened again.
#[test]
fn told_before(rt: HostRuntime) -> Result<(), Fail> {
    let Ok(clock) = TurnClock::new(rt.alloc(), 1) else {
        return Err("no memory".into());
    };
    clock.listen(0);
    clock.tell(0);
    clock.tell(0);
    assert_eq!(rt; clock.rest(&rt, 0, 7), 0);
    clock.listen(0);
    assert_eq!(rt; clock.rest(&rt, 0, 7), 7);
    Ok(())
}
