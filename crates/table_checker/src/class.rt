//! The rules that go by class.
ghost use Rattle.std.specs.Prelude.{◌≡◌, ◌≤◌, [], length, Some, None, ◌&&◌, ◌==◌};
ghost use Rattle.std.specs.Option.{option_or};
ghost use Rattle.net_rows.specs.Network.{day as day_of};
ghost use Rattle.network_law.specs.Checked.{sum_below};
ghost use Rattle.std.specs.List.{list_any};
ghost use Rattle.std.specs.Cmp.Lexicographic.{pointwise};

use crate::refusal::{Kind, Refusal};
use card_digits::{Amount, NodeNo, Prefix};
use net_rows::{Issuer, Route, StandIn, Tables};
use rank_cert::Cert;
use rows_in_force::{InForce, LinkEnds};

/// The rules at one class, with the rows in force there.
#[derive(Clone, Copy, Debug)]
pub(crate) struct At<'a> {
    pub tables: &'a Tables,
    pub cert: &'a Cert,
    pub class: Prefix,
    pub routes: &'a InForce<'a, Route>,
    pub stand_ins: &'a InForce<'a, StandIn>,
    pub ends: &'a LinkEnds,
}

/// The first refusals of what nodes may approve by themselves.
#[derive(Clone, Copy, Debug)]
pub(crate) struct ByDay {
    pub not_named: Option<Refusal>,
    pub over_ceiling: Option<Refusal>,
}

impl At<'_> {
    ghost use Rattle.table_checker.specs.Rules.{not_named, over_ceiling, node_refusal, has_row, no_issuer};
    ghost use Rattle.table_checker.specs.Search.{first_below};
    ghost use Rattle.table_checker.specs.Known.{HasRows};
    ghost use Rattle.table_checker.specs.Here.{here};

    /// The refusal of a node that may approve so much by itself, and so isn't among the named.
    fn not_named(&self, named: &[NodeNo], node: NodeNo, day: u64) -> Option<Refusal>
        requires { day ≡ day_of self.now.tables.now node self.now.class }
        ensures { result ≡ here self.now not_named named.now node }
    {
        if day > 0 && !named.contains(&node) {
            Some(Refusal::NotNamed(node, self.class))
        } else {
            None
        }
    }

    /// Adds the refusal of a node that may approve so much to those of the nodes before it.
    fn add_day(&self, first: &mut Option<Refusal>, named: &[NodeNo], node: NodeNo, day: u64)
        requires { day ≡ day_of self.now.tables.now node self.now.class }
        ensures { first.new ≡ option_or first.old (here self.now not_named named.now node) }
    {
        if day == 0 || first.is_some() {
            return;
        }
        *first = self.not_named(named, node, day);
    }

    /// The refusal of amounts that add up to so much.
    fn over_ceiling(&self, ceiling: u64, total: u64) -> Option<Refusal>
        requires { total ≡ sum_below (λ n. day_of self.now.tables.now n self.now.class) (length self.now.tables.now.nodes) }
        ensures { result ≡ here self.now over_ceiling ceiling }
    {
        if total > ceiling {
            Some(Refusal::OverCeiling(self.class, total, ceiling))
        } else {
            None
        }
    }

    /// How much a node may approve by itself for a card and a day.
    fn day(&self, node: NodeNo) -> Amount
        requires { HasRows self.now }
        ensures { result ≡ day_of self.now.tables.now node self.now.class }
    {
        match self.stand_ins.row(node) {
            Some(row) => row.day,
            None => Amount::new(0),
        }
    }

    /// Nothing, where no node has a row for it.
    fn no_day(&self, ceiling: u64) -> ByDay
        requires { self.now.tables.now.stand_ins ≡ [] }
        ensures not_named { result.not_named ≡ None }
        ensures over_ceiling { result.over_ceiling ≡ here self.now over_ceiling ceiling }
    {
        ByDay {
            not_named: None,
            over_ceiling: self.over_ceiling(ceiling, 0),
        }
    }

    /// What nodes may approve by themselves, each looked up once.
    pub fn by_day(&self, issuer: &Issuer) -> ByDay
        requires { HasRows self.now }
        ensures not_named { result.not_named ≡ first_below (here self.now node_refusal Kind.NotNamed issuer.now) (length self.now.tables.now.nodes) }
        ensures over_ceiling { result.over_ceiling ≡ here self.now over_ceiling issuer.now.ceiling }
    {
        if self.tables.stand_ins().is_empty() {
            return self.no_day(issuer.ceiling.value());
        }
        let mut not_named = None;
        let mut total = 0;
        for i in 0..self.tables.nodes().len() {
            let node = NodeNo::new(i);
            let day = self.day(node).value();
            self.add_day(&mut not_named, issuer.named.as_slice(), node, day);
            total += day;
        }
        ByDay {
            not_named,
            over_ceiling: self.over_ceiling(issuer.ceiling.value(), total),
        }
    }

    fn has_row(&self, node: NodeNo) -> bool
        ensures { result ≡ here self.now has_row node }
    {
        has_route(self.tables.routes(), node, &self.class)
            || has_stand_in(self.tables.stand_ins(), node, &self.class)
    }

    fn no_issuer(&self, node: NodeNo) -> Option<Refusal>
        ensures { result ≡ here self.now no_issuer node }
    {
        if self.has_row(node) {
            Some(Refusal::NoIssuer(node, self.class))
        } else {
            None
        }
    }

    /// The first row at the class, where no issuer's prefix begins it.
    pub fn first_without_issuer(&self) -> Option<Refusal>
        ensures { result ≡ first_below (here self.now no_issuer) (length self.now.tables.now.nodes) }
    {
        for i in 0..self.tables.nodes().len() {
            let found = self.no_issuer(NodeNo::new(i));
            if found.is_some() {
                return found;
            }
        }
        None
    }
}

fn has_route(rows: &[Route], node: NodeNo, prefix: &Prefix) -> bool
    ensures { result ≡ list_any (λ r. (r.node == node) && pointwise ◌==◌ r.prefix prefix.now) rows.now }
{
    rows.iter()
        .any(|row| row.node == node && row.prefix == *prefix)
}

fn has_stand_in(rows: &[StandIn], node: NodeNo, prefix: &Prefix) -> bool
    ensures { result ≡ list_any (λ r. (r.node == node) && pointwise ◌==◌ r.prefix prefix.now) rows.now }
{
    rows.iter()
        .any(|row| row.node == node && row.prefix == *prefix)
}
