//! The networks.
use crate::pieces::*;
use std::alloc::{AllocError, Global};

/// A network of tests. Its gate is A, with the acquirer 400001, and the home of the cards that begin with 4 is H.
#[derive(Clone, Copy, Debug, PartialEq, Eq)]
pub enum Sample {
    /// A and H, joined by a link.
    TwoNodes,
    /// The same, with the acquirer 400002 at A too.
    TwoAcquirers,
    /// Two nodes, of which A may approve 1,000 a day for each card.
    LimitAtA,
    /// Two ways from A to H, over P and over Q. A may approve 1,000 a day for each card.
    Diamond,
    /// The same, where no node may approve.
    DiamondWithoutLimit,
    /// A with a link to H, and one with a shorter timer to B, the home of the cards that begin with 5.
    TwoHomes,
    /// A and B, the gate of the acquirer 400002, are linked with each other and with H. A may approve 300 a day, and B 200.
    SharedLimits,
    /// A, B and H in a line.
    Line,
    /// The same with the acquirer 400002 at A too. B is the home of the cards that begin with 5.
    LineOfTwoHomes,
    /// A with a link to H and another way over P, with short timers. H is the gate of the acquirer 400002. A may approve 1,000 a day, at
    /// most 600 at once, and H 500. Nobody may approve cards that begin with 5, and only H knows where they go.
    LimitAtHome,
    /// A with three links to H, and H the home of the cards that begin with 5 too. Requests of cards that begin with 4 wait for 4,000
    /// ticks on the first link, or on the second where that is down; those that begin with 5 wait for one tick on the third.
    LongWaits,
}

fn two_nodes(alloc: Global) -> Result<String, AllocError> {
    [
        SETTINGS,
        NODE_A,
        NODE_H,
        LINK_AH,
        ACQUIRER_AT_A,
        ISSUER_AT_H,
        A_BY_AH,
    ]
    .concat(alloc)
}

fn two_acquirers(alloc: Global) -> Result<String, AllocError> {
    let two_nodes = two_nodes(alloc)?;
    [two_nodes.as_str(), SECOND_ACQUIRER_AT_A].concat(alloc)
}

fn limit_at_a(alloc: Global) -> Result<String, AllocError> {
    [
        SETTINGS,
        NODE_A,
        NODE_H,
        LINK_AH,
        ACQUIRER_AT_A,
        ISSUER_NAMES_A,
        A_BY_AH,
        A_1000,
    ]
    .concat(alloc)
}

/// The diamond's nodes, links and routes.
fn diamond_ways(alloc: Global) -> Result<String, AllocError> {
    [
        SETTINGS,
        NODE_A,
        NODE_P,
        NODE_Q,
        NODE_H,
        LINK_AP,
        LINK_AQ,
        LINK_PH,
        LINK_QH,
        ACQUIRER_AT_A,
        A_BY_AP_OR_AQ,
        P_BY_PH,
        Q_BY_QH,
    ]
    .concat(alloc)
}

fn diamond(alloc: Global) -> Result<String, AllocError> {
    let ways = diamond_ways(alloc)?;
    [ways.as_str(), ISSUER_NAMES_A, A_1000].concat(alloc)
}

fn diamond_without_limit(alloc: Global) -> Result<String, AllocError> {
    let ways = diamond_ways(alloc)?;
    [ways.as_str(), ISSUER_AT_H].concat(alloc)
}

fn two_homes(alloc: Global) -> Result<String, AllocError> {
    [
        SETTINGS,
        NODE_A,
        NODE_H,
        NODE_B,
        LINK_AH,
        SHORT_LINK_AB,
        ACQUIRER_AT_A,
        ISSUER_AT_H,
        SECOND_ISSUER_AT_B,
        A_BY_AH,
        SECOND_BY_AB,
    ]
    .concat(alloc)
}

fn shared_limits(alloc: Global) -> Result<String, AllocError> {
    [
        SETTINGS,
        NODE_A,
        NODE_B,
        NODE_H,
        LINK_AB,
        LINK_AH,
        LINK_BH,
        ACQUIRER_AT_A,
        SECOND_ACQUIRER_AT_B,
        ISSUER_NAMES_A_AND_B,
        A_BY_AH,
        B_BY_BH,
        A_300,
        B_200,
    ]
    .concat(alloc)
}

fn line(alloc: Global) -> Result<String, AllocError> {
    [
        SETTINGS,
        NODE_A,
        NODE_B,
        NODE_H,
        LINK_AB,
        LINK_BH,
        ACQUIRER_AT_A,
        ISSUER_AT_H,
        A_BY_AB,
        B_BY_BH,
    ]
    .concat(alloc)
}

fn line_of_two_homes(alloc: Global) -> Result<String, AllocError> {
    let line = line(alloc)?;
    [
        line.as_str(),
        SECOND_ACQUIRER_AT_A,
        SECOND_ISSUER_AT_B,
        SECOND_BY_AB,
    ]
    .concat(alloc)
}

fn limit_at_home(alloc: Global) -> Result<String, AllocError> {
    [
        SHORT_TIMERS,
        NODE_A,
        NODE_P,
        NODE_H,
        LINK_AP,
        LINK_AH,
        LINK_PH,
        ACQUIRER_AT_A,
        SECOND_ACQUIRER_AT_H,
        ISSUER_NAMES_A_AND_H,
        SECOND_ISSUER_AT_H,
        A_BY_AP_OR_AH,
        P_BY_PH,
        A_1000_SINGLE_600,
        H_500,
    ]
    .concat(alloc)
}

fn long_waits(alloc: Global) -> Result<String, AllocError> {
    [
        SLOW_ADVICES,
        NODE_A,
        NODE_H,
        SLOW_LINK,
        SPARE_LINK,
        QUICK_LINK,
        ACQUIRER_AT_A,
        ISSUER_AT_H,
        SECOND_ISSUER_AT_H,
        A_BY_SLOW_OR_SPARE,
        SECOND_BY_QUICK,
    ]
    .concat(alloc)
}

impl Sample {
    /// Its tables, as TOML.
    pub fn tables(self, alloc: Global) -> Result<String, AllocError> {
        match self {
            Sample::TwoNodes => two_nodes(alloc),
            Sample::TwoAcquirers => two_acquirers(alloc),
            Sample::LimitAtA => limit_at_a(alloc),
            Sample::Diamond => diamond(alloc),
            Sample::DiamondWithoutLimit => diamond_without_limit(alloc),
            Sample::TwoHomes => two_homes(alloc),
            Sample::SharedLimits => shared_limits(alloc),
            Sample::Line => line(alloc),
            Sample::LineOfTwoHomes => line_of_two_homes(alloc),
            Sample::LimitAtHome => limit_at_home(alloc),
            Sample::LongWaits => long_waits(alloc),
        }
    }

    /// Ranks with which the checker accepts them.
    pub fn ranks(self) -> &'static str {
        match self {
            Sample::TwoNodes | Sample::TwoAcquirers | Sample::LimitAtA => {
                "RANKS 1\nA 4 1\nH 4 0\nEND\n"
            }
            Sample::Diamond | Sample::DiamondWithoutLimit => {
                "RANKS 1\nA 4 2\nP 4 1\nQ 4 1\nH 4 0\nEND\n"
            }
            Sample::TwoHomes => "RANKS 1\nA 4 1\nH 4 0\nA 5 1\nB 5 0\nEND\n",
            Sample::SharedLimits => "RANKS 1\nA 4 1\nB 4 1\nH 4 0\nEND\n",
            Sample::Line => "RANKS 1\nA 4 2\nB 4 1\nH 4 0\nEND\n",
            Sample::LineOfTwoHomes => "RANKS 1\nA 4 2\nB 4 1\nH 4 0\nA 5 1\nB 5 0\nEND\n",
            Sample::LimitAtHome => "RANKS 1\nA 4 2\nP 4 1\nH 4 0\nEND\n",
            Sample::LongWaits => "RANKS 1\nA 4 1\nH 4 0\nA 5 1\nH 5 0\nEND\n",
        }
    }
}
