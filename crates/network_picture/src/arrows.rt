//! The links of a picture, and the routes of its class.
ghost use Rattle.std.specs.Prelude.{◌≡◌, ◌<◌, ◌≤◌, ◌++◌, length, IfOk};
ghost use Rattle.std.specs.Option.{option_copied};
ghost use Rattle.network_picture.specs.Made.{route_in, link_line, link_lines, choice_at, arrow, arrows_of, arrows_at, arrows_below};

use crate::marks::{has_link, has_route};
use crate::nodes::AtClass;
use card_digits::{LinkNo, NodeNo};
use net_rows::{Link, Route};
use picture_text::{Arrow, Choice, LinkLine};
use std::alloc::{AllocError, Global};

/// Where the link at a place stands in its row.
fn choice_at(place: usize) -> Choice
    ensures { result ≡ choice_at place }
{
    if place == 0 {
        Choice::First
    } else {
        Choice::Fallback
    }
}

impl AtClass<'_> {
    /// The link at a place.
    fn link_line(&self, place: usize, row: &Link) -> LinkLine
        requires { place < 256 }
        ensures { result ≡ link_line self.now.found.now place row.now }
    {
        LinkLine {
            link: LinkNo::new(place),
            name: row.name,
            from: row.from,
            to: row.to,
            ticks: row.ticks,
            is_refused: has_link(self.found, place),
        }
    }

    /// All links, in the order of the tables.
    pub fn links(&self, alloc: Global) -> Result<Vec<LinkLine>, AllocError>
        ensures { IfOk result (λ v. v.items ≡ link_lines self.now.tables.now self.now.found.now) }
    {
        let mut links = Vec::new(alloc);
        let rows = self.tables.links();
        for (place, row) in rows.iter().enumerate() {
            let next = self.link_line(place, row);
            links.push(next)?;
        }
        Ok(links)
    }

    /// The route row in force at a node.
    fn route(&self, node: NodeNo) -> Option<&Route>
        ensures { option_copied result ≡ route_in self.now.tables.now self.now.class.now node }
    {
        match self.class {
            Some(class) => self.tables.route_at(node, class),
            None => None,
        }
    }

    /// The link at a place of a node's route row.
    fn arrow(&self, node: NodeNo, is_refused: bool, place: usize, link: LinkNo) -> Arrow
        ensures { result ≡ arrow self.now.tables.now is_refused node place link }
    {
        Arrow {
            link,
            from: node,
            to: self.tables.other_end(node, link),
            choice: choice_at(place),
            is_refused,
        }
    }

    /// Adds the links of a node's route row: the first, and the fallbacks behind it.
    fn add_arrows_of(
        &self,
        arrows: &mut Vec<Arrow>,
        node: NodeNo,
        row: &Route,
    ) -> Result<(), AllocError>
        ensures { IfOk result (λ _. arrows.new.items ≡ arrows.old.items ++ arrows_of self.now.tables.now self.now.found.now node row.now) }
    {
        let is_refused = has_route(self.tables, self.found, row);
        let links = row.links.as_slice();
        for (place, link) in links.iter().enumerate() {
            let next = self.arrow(node, is_refused, place, *link);
            arrows.push(next)?;
        }
        Ok(())
    }

    /// Adds the links of the route row in force at a node, if there is one.
    fn add_arrows(&self, arrows: &mut Vec<Arrow>, node: NodeNo) -> Result<(), AllocError>
        ensures { IfOk result (λ _. arrows.new.items ≡ arrows.old.items ++ arrows_at self.now.tables.now self.now.class.now self.now.found.now node) }
    {
        match self.route(node) {
            Some(row) => self.add_arrows_of(arrows, node, row),
            None => Ok(()),
        }
    }

    /// The links of all route rows in force, node by node.
    pub fn arrows(&self, alloc: Global) -> Result<Vec<Arrow>, AllocError>
        ensures { IfOk result (λ v. v.items ≡ arrows_below self.now.tables.now self.now.class.now self.now.found.now (length self.now.tables.now.nodes)) }
    {
        let mut arrows = Vec::new(alloc);
        for place in 0..self.tables.nodes().len() {
            self.add_arrows(&mut arrows, NodeNo::new(place))?;
        }
        Ok(arrows)
    }
}
