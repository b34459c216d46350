//! Links, as the tables have them.
ghost use Rattle.std.specs.Prelude.{◌≡◌, ◌==◌, not, length, find};
ghost use Rattle.net_rows.specs.Network.{other_end};
ghost use Rattle.network_law.specs.Tables.{is_link_of, joins, links_between, link_ticks};
ghost use Rattle.network_law.specs.Traces.{ticks_by};

use card_digits::{LinkNo, NodeNo};
use net_rows::Tables;

/// Who knows which links are up.
pub trait LinkStates {
    ghost use Rattle.std.specs.Prelude.{ℕ, Bool};

    ghost up: { Self → ℕ → Bool };

    fn is_up(&self, link: LinkNo) -> bool
        ensures { result ≡ up self.now link };
}

/// Whether the link is there, and the node is one of its ends.
pub fn is_link_of(tables: &Tables, node: NodeNo, link: LinkNo) -> bool
    ensures { result ≡ is_link_of tables.now node link }
{
    match tables.links().get(link.place()) {
        Some(row) => row.from == node || row.to == node,
        None => false,
    }
}

/// Whether the link joins the two nodes.
pub fn joins(tables: &Tables, node: NodeNo, other: NodeNo, link: LinkNo) -> bool
    ensures { result ≡ joins tables.now node other link }
{
    is_link_of(tables, node, link) && tables.other_end(node, link) == other
}

/// How many ticks a request waits on this link, or for the host where it is on none and the host was asked.
pub fn ticks_by(tables: &Tables, link: Option<LinkNo>, asked: bool) -> Option<u16>
    ensures { result ≡ ticks_by tables.now link asked }
{
    match link {
        Some(link) => Some(link_ticks(tables, link)),
        None => {
            if asked {
                Some(tables.settings().host_ticks)
            } else {
                None
            }
        }
    }
}

/// How many ticks a request waits on a link.
fn link_ticks(tables: &Tables, link: LinkNo) -> u16
    ensures { result ≡ link_ticks tables.now link }
{
    match tables.links().get(link.place()) {
        Some(row) => row.ticks,
        None => 0,
    }
}

/// The first of these links that is up.
pub fn first_up<S: LinkStates>(states: &S, links: &[LinkNo]) -> Option<LinkNo>
    ensures { result ≡ find (S.up states.now) links.now }
{
    for link in links {
        if states.is_up(*link) {
            return Some(*link);
        }
    }
    None
}

/// The first link in the order of the tables that joins the two nodes and is up.
pub fn first_up_between<S: LinkStates>(
    states: &S,
    tables: &Tables,
    node: NodeNo,
    other: NodeNo,
) -> Option<LinkNo>
    ensures { result ≡ find (S.up states.now) (links_between tables.now node other) }
{
    for place in 0..tables.links().len() {
        let link = LinkNo::new(place);
        if joins(tables, node, other, link) && states.is_up(link) {
            return Some(link);
        }
    }
    None
}

/// Whether a link joins the two nodes.
pub fn are_linked(tables: &Tables, node: NodeNo, other: NodeNo) -> bool
    ensures { result ≡ not (length (links_between tables.now node other) == 0) }
{
    for place in 0..tables.links().len() {
        if joins(tables, node, other, LinkNo::new(place)) {
            return true;
        }
    }
    false
}
