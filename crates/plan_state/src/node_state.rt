//! What is told of a node.

use crate::service::Service;
use plan_threads::{Pump, Shelf};
use std::sync::Mutex;
use std::sync::atomic::{AtomicBool, AtomicU64};

/// What is told of a node.
#[derive(Drop)]
pub(crate) struct NodeState {
    /// How many of its pump and its host have not ended.
    pub working: AtomicU64,
    /// Its history is full, so nothing changes there any more.
    pub full: AtomicBool,
    /// How many entries of its trace need no look any more. Changes under the lock of its station alone.
    pub told: AtomicU64,
    /// Behind all entries that may have requests to its host.
    pub asked: AtomicU64,
    /// The places of its sessions in the plan.
    pub sessions: Vec<usize>,
    /// Where what its pump keeps lies while nobody pumps.
    pub pump: Mutex<Shelf<Pump>>,
    /// Where what is kept of its host lies while nobody asks it.
    pub service: Mutex<Shelf<Service>>,
    /// How many threads of the plan have its station, wait for it, or have just given it back.
    pub visitors: AtomicU64,
    /// Somebody wanted to make a turn there while another had the station, and nobody has seen to it since.
    pub missed: AtomicBool,
}

impl NodeState {
    /// Of a node whose sessions stand at these places of the plan, before its threads start.
    pub(crate) fn new(sessions: Vec<usize>) -> NodeState {
        NodeState {
            working: AtomicU64::new(0),
            full: AtomicBool::new(false),
            told: AtomicU64::new(0),
            asked: AtomicU64::new(0),
            sessions,
            pump: Mutex::new(Shelf::empty()),
            service: Mutex::new(Shelf::empty()),
            visitors: AtomicU64::new(0),
            missed: AtomicBool::new(false),
        }
    }
}
