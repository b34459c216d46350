//! The refusals of what nodes may approve by themselves at one class, and those of rows without an issuer.
ghost use Rattle.std.specs.Prelude.{◌≡◌, ◌==◌, IfOk, Some, length};
ghost use Rattle.std.specs.List.{position_from};
ghost use Rattle.std.specs.Cmp.Lexicographic.{pointwise};
ghost use Rattle.table_checker.specs.Rules.{not_named, over_ceiling};
ghost use Rattle.net_rows.specs.Network.{issuer as issuer_of, day as day_of};
ghost use Rattle.network_law.specs.Checked.{sum_below};
ghost use Rattle.all_refusals.specs.Rows.{Adds};
ghost use Rattle.all_refusals.specs.Known.{HasRows};
ghost use Rattle.all_refusals.specs.Here.{here};
ghost use Rattle.all_refusals.specs.Found.{each_below, own_route, own_stand_in, unnamed, too_much, without_issuer};

use crate::at::{At, add};
use crate::row::{RowRefusal, TableRow};
use card_digits::{Amount, NodeNo, Prefix};
use net_rows::Issuer;
use std::alloc::AllocError;
use table_checker::Refusal;

/// The place of the first issuer with this prefix.
fn issuer_place(issuers: &[Issuer], prefix: &Prefix) -> Option<usize>
    ensures { result ≡ position_from (λ r. pointwise ◌==◌ r.prefix prefix.now) 0 issuers.now }
{
    issuers.iter().position(|row| row.prefix == *prefix)
}

impl At<'_> {
    /// The refusal of a node that may approve so much by itself, and so isn't among the named.
    fn not_named(&self, named: &[NodeNo], node: NodeNo, day: u64) -> Option<Refusal>
        requires { day ≡ day_of self.now.tables.now node self.now.class }
        ensures { result ≡ here self.now not_named named.now node }
    {
        if day > 0 && !named.contains(&node) {
            Some(Refusal::NotNamed(node, self.class))
        } else {
            None
        }
    }

    /// Adds the stand-in row in force of a node, where it may approve by it and isn't among the named.
    fn add_unnamed_at(
        &self,
        found: &mut Vec<RowRefusal>,
        named: &[NodeNo],
        node: NodeNo,
    ) -> Result<(), AllocError>
        requires { HasRows self.now }
        ensures { IfOk result (λ _. Adds self.now.tables.now found.old.items found.new.items (here self.now unnamed named.now node)) }
    {
        let Some(place) = self.stand_ins.place(node) else {
            return Ok(());
        };
        let Some(row) = self.tables.stand_ins().get(place) else {
            return Ok(());
        };
        let refusal = self.not_named(named, node, row.day.value());
        add(found, TableRow::StandIn(place), refusal)
    }

    /// Adds the stand-in row of each node that may approve by itself and isn't named.
    pub fn add_unnamed(
        &self,
        found: &mut Vec<RowRefusal>,
        named: &[NodeNo],
    ) -> Result<(), AllocError>
        requires { HasRows self.now }
        ensures { IfOk result (λ _. Adds self.now.tables.now found.old.items found.new.items (each_below (here self.now unnamed named.now) (length self.now.tables.now.nodes))) }
    {
        for i in 0..self.tables.nodes().len() {
            self.add_unnamed_at(found, named, NodeNo::new(i))?;
        }
        Ok(())
    }

    /// How much a node may approve by itself for a card and a day.
    fn day(&self, node: NodeNo) -> Amount
        requires { HasRows self.now }
        ensures { result ≡ day_of self.now.tables.now node self.now.class }
    {
        match self.stand_ins.row(node) {
            Some(row) => row.day,
            None => Amount::new(0),
        }
    }

    /// How much all nodes together may.
    fn total(&self) -> u64
        requires { HasRows self.now }
        ensures { result ≡ sum_below (λ n. day_of self.now.tables.now n self.now.class) (length self.now.tables.now.nodes) }
    {
        let mut total = 0;
        for i in 0..self.tables.nodes().len() {
            total += self.day(NodeNo::new(i)).value();
        }
        total
    }

    /// The refusal of amounts that add up to so much.
    fn over_ceiling(&self, ceiling: u64, total: u64) -> Option<Refusal>
        requires { total ≡ sum_below (λ n. day_of self.now.tables.now n self.now.class) (length self.now.tables.now.nodes) }
        ensures { result ≡ here self.now over_ceiling ceiling }
    {
        if total > ceiling {
            Some(Refusal::OverCeiling(self.class, total, ceiling))
        } else {
            None
        }
    }

    /// Adds the issuer of the class, where nodes may approve more than its ceiling.
    pub fn add_too_much(
        &self,
        found: &mut Vec<RowRefusal>,
        issuer: &Issuer,
    ) -> Result<(), AllocError>
        requires rows { HasRows self.now }
        requires issuer { issuer_of self.now.tables.now self.now.class ≡ Some issuer.now }
        ensures { IfOk result (λ _. Adds self.now.tables.now found.old.items found.new.items (here self.now too_much issuer.now)) }
    {
        let refusal = self.over_ceiling(issuer.ceiling.value(), self.total());
        if refusal.is_none() {
            return Ok(());
        }
        let Some(place) = issuer_place(self.tables.issuers(), &issuer.prefix) else {
            return Ok(());
        };
        add(found, TableRow::Issuer(place), refusal)
    }

    /// Adds the node's route row of just this prefix.
    fn add_own_route(&self, found: &mut Vec<RowRefusal>, node: NodeNo) -> Result<(), AllocError>
        requires { HasRows self.now }
        ensures { IfOk result (λ _. Adds self.now.tables.now found.old.items found.new.items (here self.now own_route node)) }
    {
        let Some(place) = self.routes.place(node) else {
            return Ok(());
        };
        let Some(row) = self.tables.routes().get(place) else {
            return Ok(());
        };
        if row.prefix != self.class {
            return Ok(());
        }
        let refusal = Refusal::NoIssuer(node, self.class);
        add(found, TableRow::Route(place), Some(refusal))
    }

    /// The same of its stand-in rows.
    fn add_own_stand_in(&self, found: &mut Vec<RowRefusal>, node: NodeNo) -> Result<(), AllocError>
        requires { HasRows self.now }
        ensures { IfOk result (λ _. Adds self.now.tables.now found.old.items found.new.items (here self.now own_stand_in node)) }
    {
        let Some(place) = self.stand_ins.place(node) else {
            return Ok(());
        };
        let Some(row) = self.tables.stand_ins().get(place) else {
            return Ok(());
        };
        if row.prefix != self.class {
            return Ok(());
        }
        let refusal = Refusal::NoIssuer(node, self.class);
        add(found, TableRow::StandIn(place), Some(refusal))
    }

    /// Adds each row of just this prefix, node by node.
    pub fn add_without_issuer(&self, found: &mut Vec<RowRefusal>) -> Result<(), AllocError>
        requires { HasRows self.now }
        ensures { IfOk result (λ _. Adds self.now.tables.now found.old.items found.new.items (each_below (here self.now without_issuer) (length self.now.tables.now.nodes))) }
    {
        for i in 0..self.tables.nodes().len() {
            let node = NodeNo::new(i);
            self.add_own_route(found, node)?;
            self.add_own_stand_in(found, node)?;
        }
        Ok(())
    }
}
