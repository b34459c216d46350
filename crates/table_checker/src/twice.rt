//! Ids that stand twice, and timers that run too long.
ghost use Rattle.std.specs.Prelude.{◌≡◌, ◌<◌, nat_lt, IfOk, Some};
ghost use Rattle.std.specs.List.{position_from};
ghost use Rattle.table_checker.specs.Rules.{first_repeated, acquirer_twice, node_id_twice, timer_too_long};

use crate::ids::{acquirer_ids, is_among, node_ids};
use crate::refusal::Refusal;
use card_digits::{Id, LinkNo};
use net_rows::{Link, MOST_TICKS, Tables};
use std::alloc::{AllocError, Global};

/// The first id that stands behind an equal one. There are at most 1,024 ids, so each is compared with all before it.
fn first_repeated(ids: &[Id]) -> Option<Id>
    ensures { result ≡ first_repeated ids.now }
{
    for (i, id) in ids.iter().enumerate() {
        if is_among(&ids[..i], id) {
            return Some(*id);
        }
    }
    None
}

/// A second acquirer with the same padded id.
pub(crate) fn acquirer_twice(alloc: Global, tables: &Tables) -> Result<Option<Refusal>, AllocError>
    ensures { IfOk result (λ r. r ≡ acquirer_twice tables.now) }
{
    let ids = acquirer_ids(alloc, tables.acquirers())?;
    match first_repeated(&ids) {
        Some(id) => Ok(Some(Refusal::AcquirerTwice(id))),
        None => Ok(None),
    }
}

/// A second node with the same padded id.
pub(crate) fn node_id_twice(alloc: Global, tables: &Tables) -> Result<Option<Refusal>, AllocError>
    ensures { IfOk result (λ r. r ≡ node_id_twice tables.now) }
{
    let ids = node_ids(alloc, tables.nodes())?;
    match first_repeated(&ids) {
        Some(id) => Ok(Some(Refusal::NodeIdTwice(id))),
        None => Ok(None),
    }
}

fn first_long(links: &[Link]) -> Option<usize>
    ensures { result ≡ position_from (λ l. nat_lt 4000 l.ticks) 0 links.now }
{
    links.iter().position(|link| link.ticks > MOST_TICKS)
}

/// A link whose timer runs for more than 4,000 ticks.
#[tactic(auto, using(crate::proofs::Repeats::position_within))]
pub(crate) fn timer_too_long(tables: &Tables) -> Option<Refusal>
    ensures { result ≡ timer_too_long tables.now }
{
    match first_long(tables.links()) {
        Some(i) => Some(Refusal::TimerTooLong(LinkNo::new(i))),
        None => None,
    }
}
