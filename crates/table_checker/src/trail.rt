//! Where ranks are likely to stand.

use card_digits::{MOST_NODES, NodeNo};

/// So many more ranks may stand elsewhere than where they were guessed before no place is guessed any more: those of a few classes.
const PATIENCE: u16 = 256;

/// Where the rank of each node is likely to stand, in a certificate whose rows don't stand by prefix. A wrong guess costs time alone, since each
/// row is compared with the pair. Two orders are guessed: where every node has its prefixes in one order, the rows of a class are as far
/// from each other as at the class before; where a node's prefixes come in the order of the classes, its next row is at the next class.
#[derive(Clone, Copy, Debug)]
pub(crate) struct Trail {
    /// Where the class begins, known from its first rank on.
    begin: Option<usize>,
    /// How far behind the begin of its class the rank of each node was.
    offsets: [usize; MOST_NODES],
    /// The place behind the rank that was last found, by node.
    nexts: [usize; MOST_NODES],
    /// How many more may stand elsewhere.
    patience: u16,
}

impl Trail {
    /// No class was entered yet.
    pub fn new() -> Trail {
        Trail {
            begin: None,
            offsets: [0; MOST_NODES],
            nexts: [0; MOST_NODES],
            patience: PATIENCE,
        }
    }

    /// Goes on to the next class.
    pub fn enter(&mut self) {
        self.begin = None;
    }

    /// The place as far from the others of the class as before.
    pub fn beside_others(&self, node: NodeNo) -> Option<usize> {
        let begin = self.begin?;
        Some(begin.wrapping_add(self.offsets[node.place()]))
    }

    /// The place behind the node's last rank.
    pub fn behind_last(&self, node: NodeNo) -> usize {
        self.nexts[node.place()]
    }

    /// Whether places are still guessed.
    pub fn is_followed(&self) -> bool {
        self.patience > 0
    }

    /// A rank stood where it was guessed.
    pub fn hit(&mut self) {
        self.patience = self.patience.saturating_add(1).min(PATIENCE);
    }

    /// A rank didn't stand where it was guessed.
    pub fn miss(&mut self) {
        self.patience = self.patience.saturating_sub(1);
    }

    /// Adds where a rank was found.
    pub fn add(&mut self, node: NodeNo, place: usize) {
        let at = node.place();
        self.nexts[at] = place.wrapping_add(1);
        match self.begin {
            Some(begin) => self.offsets[at] = place.wrapping_sub(begin),
            None => self.begin = Some(place.wrapping_sub(self.offsets[at])),
        }
    }
}
