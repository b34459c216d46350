//! The plans that run on a network.

use std::alloc::{AllocError, Global};
use std::sync::{Arc, Mutex, Wait};
use turn_clock::TurnClock;

/// A plan that runs. On its clock the thread that pumps at a node has the node's place.
#[derive(Drop)]
struct Running {
    number: u64,
    clock: Arc<TurnClock, Global>,
}

/// The plans that run on a network: their pumps are told of steps that others make.
#[derive(Drop)]
pub(crate) struct Plans {
    running: Mutex<Vec<Running>>,
}

impl Plans {
    /// No plan runs.
    pub fn none(alloc: Global) -> Plans {
        Plans {
            running: Mutex::new(Vec::new(alloc)),
        }
    }

    /// One plan more, and the number by which it is taken out.
    pub fn add<R: Wait>(&self, rt: &R, clock: &Arc<TurnClock, Global>) -> Result<u64, AllocError> {
        let clock = Arc::try_clone(clock)?;
        let mut running = self.running.lock(rt);
        let number = match running.last() {
            Some(last) => last.number.wrapping_add(1),
            None => 0,
        };
        running.push(Running { number, clock })?;
        Ok(number)
    }

    /// One plan less, by the number that `add` gave it.
    pub fn remove<R: Wait>(&self, rt: &R, number: u64) {
        let mut running = self.running.lock(rt);
        if let Some(place) = running.iter().position(|plan| plan.number == number) {
            let _ = running.remove(place);
        }
    }

    /// Tells the pumps of a node.
    pub fn tell<R: Wait>(&self, rt: &R, node: usize) {
        for plan in self.running.lock(rt).iter() {
            plan.clock.tell(node);
        }
    }
}
