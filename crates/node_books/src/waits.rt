//! How long requests wait in a network.
ghost use Rattle.std.specs.Prelude.{◌≡◌, ◌↔◌, IfOk, IsTrue};
ghost use Rattle.node_books.specs.Values.{waits_in};

use net_rows::Link;
use pending_book::Waits;
use std::alloc::{AllocError, Global};

/// How long requests wait in a network with these links and this wait for the host.
pub fn waits_in(alloc: Global, links: &[Link], host: u16) -> Result<Waits, AllocError>
    ensures { IfOk result (λ w. w ≡ waits_in links.now host) }
{
    let ticks: Vec<u16> = links.iter().map(|link| link.ticks).collect(alloc)?;
    Ok(Waits::new(ticks, host))
}

/// Whether requests wait so long in a network with these links and this wait for the host.
pub(crate) fn are_waits_in(waits: &Waits, links: &[Link], host: u16) -> bool
    ensures { IsTrue result ↔ waits.now ≡ waits_in links.now host }
{
    let ticks = waits.links();
    if ticks.len() != links.len() || waits.host() != host {
        return false;
    }
    for (i, link) in links.iter().enumerate() {
        if ticks[i] != link.ticks {
            return false;
        }
    }
    true
}
