//! Does the jobs of the program on inputs that it makes itself, and prints a digest of all answers. The words are a workload and a seed;
//! a third word `small` asks for a thousandth of each input.
#![tactic(auto)]

mod digest;
mod running;
mod workload;

use crate::running::Answers;
use crate::workload::{Desk, Workload, workload_of};
use bench_inputs::Random;
use std::io;

/// What the program's words ask for.
#[derive(Clone, Copy)]
struct Words {
    workload: Workload,
    seed: u64,
    part: u64,
}

fn words_of(rt: &HostRuntime) -> io::Result<Option<Words>> {
    let mut workload = None;
    let mut seed = 0;
    let mut part = 1;
    for (place, word) in std::env::args(rt)?.skip(1).enumerate() {
        match place {
            0 => workload = workload_of(word.as_str()),
            1 => seed = word.as_str().parse().unwrap_or(0),
            _ => part = 1_000,
        }
    }
    Ok(workload.map(|workload| Words {
        workload,
        seed,
        part,
    }))
}

fn print(rt: &HostRuntime, answers: &Answers) -> io::Result<()> {
    let inputs = answers.inputs;
    println!(rt; "{inputs} inputs")?;
    let [good, refused, faults, unwritten] = answers.statuses;
    println!(rt; "statuses {good} {refused} {faults} {unwritten}")?;
    let (written, digest) = (answers.digest.bytes(), answers.digest.value());
    println!(rt; "{written} bytes of answers, digest {digest}")
}

fn main(rt: HostRuntime) -> io::Result<()> {
    let Some(words) = words_of(&rt)? else {
        return Err(io::Error::other(
            "usage: job_bench check|awkward|make|replay|decode|run SEED [small]",
        ));
    };
    let mut desk = Desk {
        rt: &rt,
        alloc: rt.alloc(),
        random: Random::new(words.seed),
        part: words.part,
        answers: Answers::new(),
    };
    desk.work(words.workload)?;
    print(&rt, &desk.answers)
}
