//! Rows of nodes.
use card_digits::{NodeNo, Prefix};
use net_rows::{Route, StandIn};

/// A row of a node at a prefix.
pub trait Placed {
    ghost use Rattle.std.specs.Prelude.{ℕ, List, ◌≡◌};

    ghost node_of: { Self → ℕ };

    ghost prefix_of: { Self → List ℕ };

    fn node(&self) -> NodeNo
        ensures { result ≡ node_of self.now };

    fn prefix(&self) -> Prefix
        ensures { result ≡ prefix_of self.now };
}

impl Placed for Route {
    ghost node_of = { λ r. r.node };

    ghost prefix_of = { λ r. r.prefix };

    fn node(&self) -> NodeNo {
        self.node
    }

    fn prefix(&self) -> Prefix {
        self.prefix
    }
}

impl Placed for StandIn {
    ghost node_of = { λ r. r.node };

    ghost prefix_of = { λ r. r.prefix };

    fn node(&self) -> NodeNo {
        self.node
    }

    fn prefix(&self) -> Prefix {
        self.prefix
    }
}
