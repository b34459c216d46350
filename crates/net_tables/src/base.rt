//! Rows that are read together, and the tables of all of them.
ghost use Rattle.std.specs.Prelude.{◌≡◌, ◌≤◌, length, IfOk};
ghost use Rattle.std.specs.List.{AllByRecursion};
ghost use Rattle.card_digits.specs.Digits.{IsDateLabel, IsId};
ghost use Rattle.net_rows.specs.Sound.{AreEnds, AreAtNodes, AreOwnLinks};

use named_rows::NamedRows;
use net_rows::{Acquirer, Issuer, Link, Node, Route, Settings, StandIn, Tables};
use std::alloc::{AllocError, Global};

/// What rows point to: the settings, and the rows that other rows name.
#[derive(Drop)]
pub(crate) struct Base {
    pub settings: Settings,
    pub nodes: NamedRows<Node>,
    pub links: NamedRows<Link>,
}

/// Who is joined to the nodes.
#[derive(Drop)]
pub(crate) struct Parties {
    pub acquirers: Vec<Acquirer>,
    pub issuers: Vec<Issuer>,
}

/// Where cards go, and what nodes may approve.
#[derive(Drop)]
pub(crate) struct Rules {
    pub routes: Vec<Route>,
    pub stand_ins: Vec<StandIn>,
}

/// The tables of these rows.
pub(crate) fn tables_of_rows(
    alloc: Global,
    base: Base,
    parties: Parties,
    rules: Rules,
) -> Result<Tables, AllocError>
    requires date { IsDateLabel base.settings.date }
    requires few_nodes { length base.nodes ≤ 64 }
    requires few_links { length base.links ≤ 256 }
    requires ids { AllByRecursion (λ n. IsId n.id) base.nodes }
    requires ends { AreEnds (length base.nodes) base.links }
    requires gates { AreAtNodes (length base.nodes) parties.acquirers.items }
    requires own { AreOwnLinks base.links rules.routes.items }
    ensures { IfOk result (λ t. t ≡ record {
      settings = base.settings;
      nodes = base.nodes;
      links = base.links;
      acquirers = parties.acquirers.items;
      issuers = parties.issuers.items;
      routes = rules.routes.items;
      stand_ins = rules.stand_ins.items;
    }) }
{
    Tables::new(
        alloc,
        base.settings,
        base.nodes.into_rows(),
        base.links.into_rows(),
        parties.acquirers,
        parties.issuers,
        rules.routes,
        rules.stand_ins,
    )
}
