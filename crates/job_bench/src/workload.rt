//! The inputs of each workload.
use crate::running::Answers;
use bench_inputs::{
    Capture, Load, Network, Order, Random, Shape, Text, Traffic, Twist, frames, push_ranks,
    push_tables,
};
use command_line::Job;
use std::alloc::{AllocError, Global};
use std::sync::Wait;
use std::thread::Threads;

/// What is done, over and over, on inputs of one kind.
#[derive(Clone, Copy)]
pub(crate) enum Workload {
    /// Checks of tables in order, with ranks by prefix.
    Check,
    /// Checks of tables and ranks in other orders, with faults and refusals at the end.
    Awkward,
    Make,
    Replay,
    Decode,
    Run,
}

impl Workload {
    /// How often its inputs are made, each time others, so that it takes a second or more.
    fn rounds(self) -> u32 {
        match self {
            Workload::Check | Workload::Awkward | Workload::Make | Workload::Decode => 2,
            Workload::Run => 3,
            Workload::Replay => 1,
        }
    }
}

pub(crate) fn workload_of(word: &str) -> Option<Workload> {
    match word {
        "check" => Some(Workload::Check),
        "awkward" => Some(Workload::Awkward),
        "make" => Some(Workload::Make),
        "replay" => Some(Workload::Replay),
        "decode" => Some(Workload::Decode),
        "run" => Some(Workload::Run),
        _ => None,
    }
}

/// Who does jobs: where threads and memory come from, what inputs are made of, and how many parts of full inputs these have.
#[derive(Drop)]
pub(crate) struct Desk<'r, T> {
    pub(crate) rt: &'r T,
    pub(crate) alloc: Global,
    pub(crate) random: Random,
    /// Counts of rows, lines and requests are divided by this.
    pub(crate) part: u64,
    pub(crate) answers: Answers,
}

fn shape(classes: u64, routes: u64, stand_ins: u64) -> Shape {
    Shape {
        issuers: 250,
        classes,
        routes,
        stand_ins,
    }
}

impl<T: Threads + Wait + Sync> Desk<'_, T> {
    /// So much of a full input.
    fn cut(&self, count: u64) -> u64 {
        match count.checked_div(self.part) {
            Some(cut) => cut.max(1),
            None => count,
        }
    }

    fn add(&mut self, job: Job, input: &Text) {
        self.answers.add(self.rt, self.alloc, job, input);
    }

    fn network(&mut self, full: Shape, order: Order, twist: Twist) -> Result<Network, AllocError> {
        let mut cut = full;
        cut.issuers = self.cut(full.issuers);
        cut.classes = self.cut(full.classes);
        Network::new(self.alloc, &mut self.random, cut, order, twist)
    }

    fn check_text(
        &mut self,
        mut text: Text,
        full: Shape,
        order: Order,
        twist: Twist,
    ) -> Result<(), AllocError> {
        let network = self.network(full, order, twist)?;
        push_tables(&mut text, &network)?;
        text.line(b"%%")?;
        push_ranks(&mut text, &network)?;
        self.add(Job::Check, &text);
        Ok(())
    }

    fn check(&mut self, full: Shape, order: Order, twist: Twist) -> Result<(), AllocError> {
        let text = Text::new(self.alloc);
        self.check_text(text, full, order, twist)
    }

    fn check_all(&mut self) -> Result<(), AllocError> {
        self.check(shape(8_000, 3, 2), Order::ByPrefix, Twist::Nothing)?;
        self.check(shape(1_000, 63, 8), Order::ByPrefix, Twist::Nothing)?;
        self.check(shape(8_000, 3, 2), Order::ByPrefix, Twist::Nothing)?;
        self.check(shape(6_000, 2, 8), Order::ByPrefix, Twist::Nothing)
    }

    fn check_awkward(&mut self) -> Result<(), AllocError> {
        self.check(shape(3_000, 3, 2), Order::ByNode, Twist::Nothing)?;
        self.check(shape(2_000, 3, 2), Order::ByPrefix, Twist::SettingsLast)?;
        let text = Text::with_carriage_returns(self.alloc);
        let order = Order::ByPrefix;
        self.check_text(text, shape(3_000, 3, 2), order, Twist::RefusedLast)?;
        self.check(shape(3_000, 12, 8), Order::ByPrefix, Twist::FaultLast)?;
        self.check(shape(6_000, 12, 8), Order::ByPrefix, Twist::NoRanks)?;
        self.check(shape(3_000, 3, 2), Order::ByPrefix, Twist::StrayRank)
    }

    fn make(&mut self, full: Shape, twist: Twist) -> Result<(), AllocError> {
        let network = self.network(full, Order::ByPrefix, twist)?;
        let mut text = Text::new(self.alloc);
        push_tables(&mut text, &network)?;
        self.add(Job::Make, &text);
        Ok(())
    }

    fn make_all(&mut self) -> Result<(), AllocError> {
        self.make(shape(40_000, 1, 0), Twist::Nothing)?;
        self.make(shape(1_500, 63, 8), Twist::Nothing)?;
        self.make(shape(20_000, 3, 2), Twist::Nothing)?;
        self.make(shape(20_000, 2, 1), Twist::Circle)
    }

    fn replay(&mut self, traffic: Traffic) -> Result<(), AllocError> {
        let text = traffic.bundle(self.alloc, &mut self.random)?;
        self.add(Job::Replay, &text);
        Ok(())
    }

    fn replay_all(&mut self) -> Result<(), AllocError> {
        self.replay(Traffic::Answered(self.cut(80_000)))?;
        self.replay(Traffic::Beside(self.cut(30_000), self.cut(40_000)))?;
        self.replay(Traffic::Failing(3, self.cut(8_000)))?;
        self.replay(Traffic::StandIn(10, self.cut(6_000)))
    }

    fn decode(&mut self, capture: Capture, lines: u64) -> Result<(), AllocError> {
        let lines = self.cut(lines);
        let text = capture.lines(self.alloc, &mut self.random, lines)?;
        self.add(Job::Decode { frames: false }, &text);
        Ok(())
    }

    fn decode_frames(&mut self, count: u64) -> Result<(), AllocError> {
        let count = self.cut(count);
        let text = frames(self.alloc, &mut self.random, count)?;
        self.add(Job::Decode { frames: true }, &text);
        Ok(())
    }

    fn decode_all(&mut self) -> Result<(), AllocError> {
        for _ in 0..4 {
            self.decode(Capture::Mixed, 100_000)?;
            self.decode_frames(100_000)?;
        }
        for _ in 0..2 {
            self.decode(Capture::CarriageReturns, 100_000)?;
            self.decode(Capture::Long, 60_000)?;
            self.decode(Capture::Faults, 200_000)?;
        }
        Ok(())
    }

    fn run(&mut self, load: Load) -> Result<(), AllocError> {
        let text = load.bundle(self.alloc, &mut self.random)?;
        self.add(Job::Run, &text);
        Ok(())
    }

    /// A chain of three nodes with few sessions, a tree of sixteen with many, and many sessions at one node.
    fn run_all(&mut self) -> Result<(), AllocError> {
        self.run(Load {
            nodes: 3,
            children: 1,
            gates: 3,
            sessions: 4,
            requests: self.cut(1_000),
        })?;
        self.run(Load {
            nodes: 16,
            children: 3,
            gates: 16,
            sessions: 48,
            requests: self.cut(200),
        })?;
        self.run(Load {
            nodes: 2,
            children: 1,
            gates: 1,
            sessions: 60,
            requests: self.cut(100),
        })
    }

    fn round(&mut self, workload: Workload) -> Result<(), AllocError> {
        match workload {
            Workload::Check => self.check_all(),
            Workload::Awkward => self.check_awkward(),
            Workload::Make => self.make_all(),
            Workload::Replay => self.replay_all(),
            Workload::Decode => self.decode_all(),
            Workload::Run => self.run_all(),
        }
    }

    pub(crate) fn work(&mut self, workload: Workload) -> Result<(), AllocError> {
        for _ in 0..workload.rounds() {
            self.round(workload)?;
        }
        Ok(())
    }
}
