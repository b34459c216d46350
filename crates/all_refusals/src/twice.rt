//! Ids that stand twice, and timers that run too long.
ghost use Rattle.std.specs.Prelude.{◌≡◌, [], IfOk, Some};
ghost use Rattle.net_rows.specs.Network.{Network};
ghost use Rattle.all_refusals.specs.Rows.{Adds, row_at};
ghost use Rattle.all_refusals.specs.Known.{id_refusal, id_row};
ghost use Rattle.all_refusals.specs.Found.{again, repeated, too_long, acquirers_twice, node_ids_twice, long_from};

use crate::at::add;
use crate::row::{RowRefusal, TableRow};
use card_digits::{Id, LinkNo};
use net_rows::{Link, MOST_TICKS, Tables};
use std::alloc::{AllocError, Global};
use table_checker::{Refusal, acquirer_ids, is_among, node_ids};

/// A table whose rows have ids.
#[derive(Clone, Copy, Debug)]
pub(crate) enum IdTable {
    Acquirers,
    Nodes,
}

/// The refusal of an id that stands a second time.
fn id_refusal(table: IdTable, id: Id) -> Refusal
    ensures { result ≡ id_refusal table id }
{
    match table {
        IdTable::Acquirers => Refusal::AcquirerTwice(id),
        IdTable::Nodes => Refusal::NodeIdTwice(id),
    }
}

/// The row at a place.
fn id_row(table: IdTable, place: usize) -> TableRow
    ensures { (t : Network) → row_at t result ≡ Some (id_row table place) }
{
    match table {
        IdTable::Acquirers => TableRow::Acquirer(place),
        IdTable::Nodes => TableRow::Node(place),
    }
}

/// The refusal of an id that stands behind an equal one.
fn id_again(table: IdTable, before: &[Id], id: &Id) -> Option<Refusal>
    ensures { result ≡ again (id_refusal table) before.now id.now }
{
    if is_among(before, id) {
        Some(id_refusal(table, *id))
    } else {
        None
    }
}

/// Adds each row whose id stands behind an equal one. There are at most 1,024, so each is compared with all before it.
fn add_repeated(found: &mut Vec<RowRefusal>, table: IdTable, ids: &[Id]) -> Result<(), AllocError>
    ensures { IfOk result (λ _. (t : Network) → Adds t found.old.items found.new.items (repeated (id_refusal table) (id_row table) [] ids.now)) }
{
    for (i, id) in ids.iter().enumerate() {
        let refusal = id_again(table, &ids[..i], id);
        add(found, id_row(table, i), refusal)?;
    }
    Ok(())
}

/// Adds each acquirer whose padded id stands behind an equal one.
pub(crate) fn add_acquirers_twice(
    alloc: Global,
    found: &mut Vec<RowRefusal>,
    tables: &Tables,
) -> Result<(), AllocError>
    ensures { IfOk result (λ _. Adds tables.now found.old.items found.new.items (acquirers_twice tables.now)) }
{
    let ids = acquirer_ids(alloc, tables.acquirers())?;
    add_repeated(found, IdTable::Acquirers, &ids)
}

/// Adds each node whose padded id stands behind an equal one.
pub(crate) fn add_node_ids_twice(
    alloc: Global,
    found: &mut Vec<RowRefusal>,
    tables: &Tables,
) -> Result<(), AllocError>
    ensures { IfOk result (λ _. Adds tables.now found.old.items found.new.items (node_ids_twice tables.now)) }
{
    let ids = node_ids(alloc, tables.nodes())?;
    add_repeated(found, IdTable::Nodes, &ids)
}

/// The refusal of a link whose timer runs for more than 4,000 ticks.
fn too_long(link: &Link, no: LinkNo) -> Option<Refusal>
    ensures { result ≡ too_long link.now no }
{
    if link.ticks > MOST_TICKS {
        Some(Refusal::TimerTooLong(no))
    } else {
        None
    }
}

/// Adds each link whose timer runs for more than 4,000 ticks.
pub(crate) fn add_long_timers(
    found: &mut Vec<RowRefusal>,
    tables: &Tables,
) -> Result<(), AllocError>
    ensures { IfOk result (λ _. Adds tables.now found.old.items found.new.items (long_from 0 tables.now.links)) }
{
    let links = tables.links();
    for (i, link) in links.iter().enumerate() {
        let refusal = too_long(link, LinkNo::new(i));
        add(found, TableRow::Link(i), refusal)?;
    }
    Ok(())
}
