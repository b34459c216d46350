//! What sessions ended with, and what the traces show.

use crate::fault::StationFault;
use crate::station::Station;
use card_digits::{LinkNo, NodeNo};

/// What became of a line.
#[derive(Drop)]
pub enum LineEnd {
    /// The bytes of the answer to it.
    Answer(Vec<u8>),
    Nothing,
    Refused(StationFault),
}

/// The node at which a session entered its lines, and what became of them.
#[derive(Drop)]
pub struct SessionEnd {
    pub node: NodeNo,
    pub lines: Vec<LineEnd>,
}

/// What became of all sessions of a plan, in its order.
#[derive(Drop)]
pub struct Ended {
    pub sessions: Vec<SessionEnd>,
}

/// What the traces of all stations show. The first that is found is told, of stations, then links, then answers.
#[derive(Clone, Copy, Debug, PartialEq, Eq)]
pub enum Verdict {
    /// They are a run, and each answer of a session stands in the trace of its node.
    Linked,
    /// A packet with this serial was taken from the link, and wasn't put at its other end.
    LinkStrange(LinkNo, u64),
    /// The answer to this line of this session, both counted from 1, isn't one of its node.
    AnswerStrange(usize, usize),
    /// The station in this node's place holds another node, or one of other tables.
    StationStrange(NodeNo),
}

/// The stations with their traces, in the order of the tables, and what they show.
#[derive(Drop)]
pub struct Finished<'a> {
    pub stations: Vec<Station<'a>>,
    pub verdict: Verdict,
}
