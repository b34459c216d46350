//! Runs of jobs over inputs, and what came of them.
use crate::digest::Digest;
use bench_inputs::Text;
use bundle_jobs::run_bundle;
use card_digits::Counted;
use command_line::Job;
use std::alloc::Global;
use std::sync::Wait;
use std::thread::Threads;

/// All that jobs answered up to now.
#[derive(Drop)]
pub(crate) struct Answers {
    pub(crate) digest: Digest,
    pub(crate) inputs: u64,
    /// How many jobs ended with each status; the last is for a job that could not write.
    pub(crate) statuses: [u64; 4],
}

impl Answers {
    pub(crate) fn new() -> Answers {
        Answers {
            digest: Digest::new(),
            inputs: 0,
            statuses: [0; 4],
        }
    }

    fn count(&mut self, status: u8) {
        let place = status.min(3) as usize;
        self.statuses[place] = self.statuses[place].wrapping_add(1);
    }

    /// Does a job on an input.
    pub(crate) fn add<T: Threads + Wait + Sync>(
        &mut self,
        rt: &T,
        alloc: Global,
        job: Job,
        input: &Text,
    ) {
        self.inputs = self.inputs.wrapping_add(1);
        let mut reader = Counted::reader(input.as_bytes());
        match run_bundle(rt, alloc, job, &mut reader, &mut self.digest) {
            Ok(status) => self.count(status),
            Err(_) => self.count(3),
        }
    }
}
