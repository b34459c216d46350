//! The rows of tables.
ghost use Rattle.std.specs.Prelude.{◌≡◌, ◌↔◌, IsTrue};

use crate::lists::{Compared, same_rows};
use card_digits::{LinkNo, NodeNo};
use net_rows::{Acquirer, Issuer, Link, Node, Route, Settings, StandIn};

impl Compared for NodeNo {
    fn is_same(&self, other: &NodeNo) -> bool {
        *self == *other
    }
}

impl Compared for LinkNo {
    fn is_same(&self, other: &LinkNo) -> bool {
        *self == *other
    }
}

impl Compared for Node {
    #[tactic(auto, using(crate::proofs::Fields::node_is))]
    fn is_same(&self, other: &Node) -> bool {
        self.name.as_slice() == other.name.as_slice() && self.id.as_slice() == other.id.as_slice()
    }
}

impl Compared for Link {
    #[tactic(auto, using(crate::proofs::Fields::link_is))]
    fn is_same(&self, other: &Link) -> bool {
        self.name.as_slice() == other.name.as_slice()
            && self.from == other.from
            && self.to == other.to
            && self.ticks == other.ticks
    }
}

impl Compared for Acquirer {
    #[tactic(auto, using(crate::proofs::Fields::acquirer_is))]
    fn is_same(&self, other: &Acquirer) -> bool {
        self.id.as_slice() == other.id.as_slice() && self.node == other.node
    }
}

impl Compared for Issuer {
    #[tactic(auto, using(crate::proofs::Fields::issuer_is))]
    fn is_same(&self, other: &Issuer) -> bool {
        self.name.as_slice() == other.name.as_slice()
            && self.prefix.digits() == other.prefix.digits()
            && self.home == other.home
            && same_rows(self.named.as_slice(), other.named.as_slice())
            && self.ceiling.value() == other.ceiling.value()
    }
}

impl Compared for Route {
    #[tactic(auto, using(crate::proofs::Fields::route_is))]
    fn is_same(&self, other: &Route) -> bool {
        self.node == other.node
            && self.prefix.digits() == other.prefix.digits()
            && same_rows(self.links.as_slice(), other.links.as_slice())
    }
}

impl Compared for StandIn {
    #[tactic(auto, using(crate::proofs::Fields::stand_in_is))]
    fn is_same(&self, other: &StandIn) -> bool {
        self.node == other.node
            && self.prefix.digits() == other.prefix.digits()
            && self.day.value() == other.day.value()
            && self.single.value() == other.single.value()
    }
}

impl Compared for Settings {
    #[tactic(auto, using(crate::proofs::Fields::settings_is))]
    fn is_same(&self, other: &Settings) -> bool {
        self.currency.as_slice() == other.currency.as_slice()
            && self.date.digits() == other.date.digits()
            && self.host_ticks == other.host_ticks
            && self.advice_ticks == other.advice_ticks
    }
}
