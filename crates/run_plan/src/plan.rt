//! What a plan says.

use crate::faults::Faults;
use card_digits::{Amount, NodeNo};
use replay_script::Loan;

/// What an acquirer enters at its node, one message after the answer to the last or after its turns.
#[derive(Drop)]
pub struct Session<'a> {
    pub node: NodeNo,
    /// At most 10,000.
    pub lines: Vec<&'a [u8]>,
}

/// What threads are to run.
#[derive(Drop)]
pub struct Plan<'a> {
    /// How many turns a pump, a host, and a session for each of its lines make at most: 1 to 4,000,000,000.
    pub turns: u64,
    /// A node has a tick after so many turns of its pump, and none where this is 0. At most 4,000,000,000.
    pub tick_every: u64,
    /// Up to what amount each node's host approves, in the order of the tables.
    pub limits: Vec<Amount>,
    pub faults: Faults,
    /// They are made before anything else happens.
    pub loans: Vec<Loan>,
    /// At most 256.
    pub sessions: Vec<Session<'a>>,
}
