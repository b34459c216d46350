//! The refusals at one class.
ghost use Rattle.std.specs.Prelude.{◌≡◌, IfOk, Some, length, slice_get};
ghost use Rattle.net_rows.specs.Network.{Network};
ghost use Rattle.table_checker.specs.Rules.{unranked, unranked_over, not_less_over};
ghost use Rattle.std.specs.List.{flat_map};
ghost use Rattle.all_refusals.specs.Rows.{Row, RouteRow, row_at, Adds};
ghost use Rattle.all_refusals.specs.Known.{AreRanks, HasRows};
ghost use Rattle.all_refusals.specs.Here.{here};
ghost use Rattle.all_refusals.specs.Found.{each_below, of_row, no_ranks_of, no_ranks, not_less_of, not_less};

use crate::ranks::Ranks;
use crate::row::{RowRefusal, TableRow};
use card_digits::{LinkNo, NodeNo, Prefix};
use net_rows::{Route, StandIn, Tables};
use rank_cert::Cert;
use rows_in_force::{InForce, LinkEnds};
use std::alloc::AllocError;
use table_checker::Refusal;

/// The rules at one class, with the rows in force there.
#[derive(Clone, Copy, Debug)]
pub(crate) struct At<'a> {
    pub tables: &'a Tables,
    pub cert: &'a Cert,
    pub class: Prefix,
    pub routes: &'a InForce<'a, Route>,
    pub stand_ins: &'a InForce<'a, StandIn>,
    pub ends: &'a LinkEnds,
}

/// Adds the refusal that speaks of a row, if there is one.
pub(crate) fn add(
    found: &mut Vec<RowRefusal>,
    row: TableRow,
    refusal: Option<Refusal>,
) -> Result<(), AllocError>
    ensures { IfOk result (λ _. (t : Network) (r : Row) → row_at t row ≡ Some r → Adds t found.old.items found.new.items (of_row r refusal)) }
{
    if let Some(refusal) = refusal {
        found.push(RowRefusal { refusal, row })?;
    }
    Ok(())
}

impl At<'_> {
    fn unranked(&self, ranks: &Ranks, node: NodeNo) -> Option<Refusal>
        requires { AreRanks self.now ranks.now }
        ensures { result ≡ here self.now unranked node }
    {
        match self.rank(ranks, node) {
            Some(_) => None,
            None => Some(Refusal::NoRank(node, self.class)),
        }
    }

    fn not_less_over(&self, ranks: &Ranks, node: NodeNo, link: LinkNo) -> Option<Refusal>
        requires rows { HasRows self.now }
        requires ranks { AreRanks self.now ranks.now }
        ensures { result ≡ here self.now not_less_over node link }
    {
        let far = self.rank(ranks, self.ends.other_end(node, link));
        let own = self.rank(ranks, node);
        match (far, own) {
            (Some(far), Some(own)) if far < own => None,
            _ => Some(Refusal::NotLess(node, self.class, link)),
        }
    }

    /// Adds the other end of each link of the route row at a place, where it has no rank.
    fn add_unranked_over(
        &self,
        found: &mut Vec<RowRefusal>,
        ranks: &Ranks,
        node: NodeNo,
        place: usize,
        row: &Route,
    ) -> Result<(), AllocError>
        requires rows { HasRows self.now }
        requires ranks { AreRanks self.now ranks.now }
        requires place { slice_get self.now.tables.now.routes place ≡ Some row.now }
        ensures { IfOk result (λ _. Adds self.now.tables.now found.old.items found.new.items (flat_map (λ l. of_row (RouteRow row.now) (here self.now unranked_over node l)) row.now.links)) }
    {
        for link in row.links.as_slice() {
            let other = self.ends.other_end(node, *link);
            let far = self.unranked(ranks, other);
            add(found, TableRow::Route(place), far)?;
        }
        Ok(())
    }

    /// Adds each node without a rank along the route row at a place.
    fn add_no_ranks_of(
        &self,
        found: &mut Vec<RowRefusal>,
        ranks: &Ranks,
        node: NodeNo,
        place: usize,
        row: &Route,
    ) -> Result<(), AllocError>
        requires rows { HasRows self.now }
        requires ranks { AreRanks self.now ranks.now }
        requires place { slice_get self.now.tables.now.routes place ≡ Some row.now }
        ensures { IfOk result (λ _. Adds self.now.tables.now found.old.items found.new.items (here self.now no_ranks_of node row.now)) }
    {
        let own = self.unranked(ranks, node);
        add(found, TableRow::Route(place), own)?;
        self.add_unranked_over(found, ranks, node, place, row)
    }

    /// Adds each link of the route row at a place whose other end has no lower rank.
    fn add_not_less_of(
        &self,
        found: &mut Vec<RowRefusal>,
        ranks: &Ranks,
        node: NodeNo,
        place: usize,
        row: &Route,
    ) -> Result<(), AllocError>
        requires rows { HasRows self.now }
        requires ranks { AreRanks self.now ranks.now }
        requires place { slice_get self.now.tables.now.routes place ≡ Some row.now }
        ensures { IfOk result (λ _. Adds self.now.tables.now found.old.items found.new.items (here self.now not_less_of node row.now)) }
    {
        for link in row.links.as_slice() {
            let over = self.not_less_over(ranks, node, *link);
            add(found, TableRow::Route(place), over)?;
        }
        Ok(())
    }

    /// Adds those of a node, which has none where it is the home or has no route.
    fn add_no_ranks_at(
        &self,
        found: &mut Vec<RowRefusal>,
        ranks: &Ranks,
        home: NodeNo,
        node: NodeNo,
    ) -> Result<(), AllocError>
        requires rows { HasRows self.now }
        requires ranks { AreRanks self.now ranks.now }
        ensures { IfOk result (λ _. Adds self.now.tables.now found.old.items found.new.items (here self.now no_ranks home node)) }
    {
        if node == home {
            return Ok(());
        }
        let Some(place) = self.routes.place(node) else {
            return Ok(());
        };
        match self.tables.routes().get(place) {
            Some(row) => self.add_no_ranks_of(found, ranks, node, place, row),
            None => Ok(()),
        }
    }

    /// The same for ranks that aren't less.
    fn add_not_less_at(
        &self,
        found: &mut Vec<RowRefusal>,
        ranks: &Ranks,
        home: NodeNo,
        node: NodeNo,
    ) -> Result<(), AllocError>
        requires rows { HasRows self.now }
        requires ranks { AreRanks self.now ranks.now }
        ensures { IfOk result (λ _. Adds self.now.tables.now found.old.items found.new.items (here self.now not_less home node)) }
    {
        if node == home {
            return Ok(());
        }
        let Some(place) = self.routes.place(node) else {
            return Ok(());
        };
        match self.tables.routes().get(place) {
            Some(row) => self.add_not_less_of(found, ranks, node, place, row),
            None => Ok(()),
        }
    }

    /// Adds each node without a rank along a route in force.
    pub fn add_no_ranks(
        &self,
        found: &mut Vec<RowRefusal>,
        ranks: &Ranks,
        home: NodeNo,
    ) -> Result<(), AllocError>
        requires rows { HasRows self.now }
        requires ranks { AreRanks self.now ranks.now }
        ensures { IfOk result (λ _. Adds self.now.tables.now found.old.items found.new.items (each_below (here self.now no_ranks home) (length self.now.tables.now.nodes))) }
    {
        for i in 0..self.tables.nodes().len() {
            self.add_no_ranks_at(found, ranks, home, NodeNo::new(i))?;
        }
        Ok(())
    }

    /// Adds each link of a route in force whose other end has no lower rank.
    pub fn add_not_less(
        &self,
        found: &mut Vec<RowRefusal>,
        ranks: &Ranks,
        home: NodeNo,
    ) -> Result<(), AllocError>
        requires rows { HasRows self.now }
        requires ranks { AreRanks self.now ranks.now }
        ensures { IfOk result (λ _. Adds self.now.tables.now found.old.items found.new.items (each_below (here self.now not_less home) (length self.now.tables.now.nodes))) }
    {
        for i in 0..self.tables.nodes().len() {
            self.add_not_less_at(found, ranks, home, NodeNo::new(i))?;
        }
        Ok(())
    }
}
