//! What a row is found by.
ghost use Rattle.std.specs.Prelude.{◌≡◌, ◌≤◌, length, take};
ghost use Rattle.card_digits.specs.Digits.{IsPrefix};

use card_digits::{NodeNo, Prefix};

/// A row with a prefix, of a node or of the whole network.
pub(crate) trait Prefixed {
    ghost use Rattle.std.specs.Prelude.{ℕ, List, Option, ◌≡◌};

    ghost node_of: { Self → Option ℕ };

    ghost prefix_of: { Self → List ℕ };

    /// The node whose row it is, or none of a row of the whole network.
    fn node(&self) -> Option<NodeNo>
        ensures { result ≡ node_of self.now };

    fn prefix(&self) -> &Prefix
        ensures { result.now ≡ prefix_of self.now };
}

/// What a row is found by. The first of several rows with one key stands for them all.
#[derive(Clone, Copy, Debug, PartialEq, Eq, PartialOrd, Ord)]
pub(crate) struct RowKey {
    pub node: Option<NodeNo>,
    pub prefix: Prefix,
}

impl RowKey {
    /// The key of a row.
    pub fn of<R: Prefixed>(row: &R) -> RowKey
        ensures key { result ≡ record { node = R.node_of row.now; prefix = R.prefix_of row.now } }
        ensures form { IsPrefix (R.prefix_of row.now) }
    {
        let prefix = *row.prefix();
        let _ = prefix.digits();
        RowKey {
            node: row.node(),
            prefix,
        }
    }

    /// The key of the prefix's first digits.
    pub fn front(&self, len: usize) -> RowKey
        requires some { 1 ≤ len }
        requires within { len ≤ length self.now.prefix }
        ensures { result ≡ record { node = self.now.node; prefix = take len self.now.prefix } }
    {
        RowKey {
            node: self.node,
            prefix: self.prefix.front(len),
        }
    }
}
