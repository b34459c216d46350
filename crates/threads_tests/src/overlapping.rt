//! What runs while something else does not end.
use crate::network::{ranks, step, tables};
use iso_message::Message;
use message_elements::Code;
use net_operate::{Host, operate};
use net_rows::Tables;
use net_threads::{Ended, LineEnd, Network, Verdict};
use rank_cert::Cert;
use run_plan::{Plan, read_plan};
use sample_networks::Sample;
use std::alloc::Global;
use std::sync::Wait;
use std::sync::atomic::{AtomicBool, Ordering};
use std::test::Fail;
use std::thread;
use std::thread::Threads;
use switch_node::Case;
use table_checker::{Accepted, check};

/// How often a waiting thread looks at most. Some seconds.
const LOOKS: u64 = 10_000_000;

/// Whether it was set before so many looks.
fn is_set_in_time(flag: &AtomicBool) -> bool {
    for _ in 0..LOOKS {
        if flag.load(Ordering::SeqCst) {
            return true;
        }
        thread::yield_now();
    }
    false
}

#[derive(Clone, Copy)]
enum Role {
    /// Answers 00 once the other host was called, and 05 where that takes too long.
    Waits,
    /// Answers 00 at once.
    Calls,
}

#[derive(Drop)]
struct Meeting<'f> {
    role: Role,
    called: &'f AtomicBool,
}

impl<'f> Host for Meeting<'f> {
    fn authorize(&self, _request: &Message) -> Code {
        match self.role {
            Role::Waits => {
                if is_set_in_time(self.called) {
                    Code::new(*b"00")
                } else {
                    Code::new(*b"05")
                }
            }
            Role::Calls => {
                self.called.store(true, Ordering::SeqCst);
                Code::new(*b"00")
            }
        }
    }
}

/// A card of each home, entered by an acquirer each.
const TWO_HOMES: &[u8] = b"\
PLAN 1
turns 50000000
tick_every 0
session 400001
send 01007220000100008000164111111111111111000000000000001000031409153000000106400001840
session 400002
send 01007220000100008000165555555555554444000000000000001000031409153000000106400002840
END
";

const FIRST_APPROVED: &[u8] =
    b"01107222000102008000164111111111111111000000000000001000031409153000000103140640000100840";

const SECOND_APPROVED: &[u8] =
    b"01107222000102008000165555555555554444000000000000001000031409153000000103140640000200840";

/// Whether the one line of a session was answered with these bytes.
fn is_answered(ended: &Ended, session: usize, bytes: &[u8]) -> bool {
    let Some(session) = ended.sessions.get(session) else {
        return false;
    };
    match session.lines.first() {
        Some(LineEnd::Answer(answer)) => session.lines.len() == 1 && answer.as_slice() == bytes,
        _ => false,
    }
}

/// Which sessions were approved, and whether the traces are a run.
fn met<R: Threads + Wait + Sync>(
    rt: &R,
    alloc: Global,
    accepted: &Accepted<'_>,
    plan: &Plan<'_>,
) -> Option<[bool; 3]> {
    let called = AtomicBool::new(false);
    let calls = Meeting {
        role: Role::Calls,
        called: &called,
    };
    let waits = Meeting {
        role: Role::Waits,
        called: &called,
    };
    let idle = Meeting {
        role: Role::Calls,
        called: &called,
    };
    let hosts = [idle, calls, waits];
    let network = Network::new(alloc, accepted).ok()?;
    let ended = operate(rt, alloc, &network, plan, &hosts).ok()?;
    let first = is_answered(&ended, 0, FIRST_APPROVED);
    let second = is_answered(&ended, 1, SECOND_APPROVED);
    let finished = network.finish(&ended).ok()?;
    Some([first, second, finished.verdict == Verdict::Linked])
}

fn met_by_plan<R: Threads + Wait + Sync>(
    rt: &R,
    alloc: Global,
    accepted: &Accepted<'_>,
) -> Option<[bool; 3]> {
    match read_plan(alloc, accepted, TWO_HOMES) {
        Ok(plan) => met(rt, alloc, accepted, &plan),
        Err(_) => None,
    }
}

fn met_on<R: Threads + Wait + Sync>(
    rt: &R,
    alloc: Global,
    tables: &Tables,
    cert: &Cert,
) -> Option<[bool; 3]> {
    match check(alloc, tables, cert) {
        Ok(accepted) => met_by_plan(rt, alloc, &accepted),
        Err(_) => None,
    }
}

/// The host of the first home answers only once that of the second was called.
#[test]
fn two_hosts_overlap(rt: HostRuntime) -> Result<(), Fail> {
    let alloc = rt.alloc();
    let tables = tables(alloc, Sample::LineOfTwoHomes)?;
    let cert = ranks(alloc, Sample::LineOfTwoHomes)?;
    assert_eq!(rt; met_on(&rt, alloc, &tables, &cert), Some([true; 3]));
    Ok(())
}

/// Whether a tick of the second node ends while the first node's lock is held.
fn ticks_meanwhile<R: Threads + Wait + Sync>(rt: &R, network: &Network<'_, '_>) -> bool {
    let done = AtomicBool::new(false);
    let done = &done;
    let Some(first) = network.stations().get(0) else {
        return false;
    };
    thread::scope(thread::scope_env(), rt, |scope| -> bool {
        let held = first.lock(rt);
        let tick = move || {
            let _ = step(rt, network, 1, Case::Tick);
            done.store(true, Ordering::SeqCst);
        };
        let ended = scope.spawn(tick).is_ok() && is_set_in_time(done);
        drop(held);
        ended
    })
}

fn ticks_meanwhile_on<R: Threads + Wait + Sync>(
    rt: &R,
    alloc: Global,
    accepted: &Accepted<'_>,
) -> bool {
    match Network::new(alloc, accepted) {
        Ok(network) => ticks_meanwhile(rt, &network),
        Err(_) => false,
    }
}

fn ticks_meanwhile_by<R: Threads + Wait + Sync>(
    rt: &R,
    alloc: Global,
    tables: &Tables,
    cert: &Cert,
) -> bool {
    match check(alloc, tables, cert) {
        Ok(accepted) => ticks_meanwhile_on(rt, alloc, &accepted),
        Err(_) => false,
    }
}

#[test]
fn holding_a_does_not_stop_b(rt: HostRuntime) -> Result<(), Fail> {
    let alloc = rt.alloc();
    let tables = tables(alloc, Sample::LineOfTwoHomes)?;
    let cert = ranks(alloc, Sample::LineOfTwoHomes)?;
    assert!(rt; ticks_meanwhile_by(&rt, alloc, &tables, &cert));
    Ok(())
}
