//! Ranks for all classes.
ghost use Rattle.std.specs.Prelude.{◌≡◌, true, false, length, Ok, OnOk};
ghost use Rattle.rank_maker.specs.Adding.{AddsOf};

use crate::walk::{Routes, Stop, Walk};
use card_digits::{MOST_NODES, NodeNo, Prefix};
use net_rows::{Route, Tables, classes};
use rank_cert::Cert;
use rows_in_force::{InForce, LinkEnds};
use std::alloc::{AllocError, Global};

/// What was made of tables.
#[derive(Debug, Drop)]
pub enum Made {
    /// A rank for each class with an issuer and each node.
    Ranks(Cert),
    /// Nodes along whose routes a card of the class is sent round, the first of them again at the end.
    Circle(Prefix, Vec<NodeNo>),
    /// No memory, or tables in which a name stands twice.
    GaveUp,
}

/// Ranks that fall along all routes, or the first circle. A rank is the number of links of the longest walk from the node
/// along routes; the home's own routes aren't followed. Classes are in ascending order, and nodes in that of the tables.
///
/// What is made is checked by others, so nothing is promised of it.
pub fn make(alloc: Global, tables: &Tables) -> Made {
    match ranks(alloc, tables) {
        Ok(made) => made,
        Err(_) => Made::GaveUp,
    }
}

fn ranks(alloc: Global, tables: &Tables) -> Result<Made, AllocError> {
    let classes = classes(alloc, tables)?;
    let mut cert = Cert::with_room(alloc, count(tables, &classes))?;
    let mut in_force = InForce::new(alloc, tables.routes())?;
    match add_classes(alloc, tables, &classes, &mut in_force, &mut cert) {
        Ok(()) => Ok(Made::Ranks(cert)),
        Err(other) => Ok(other),
    }
}

/// Adds the ranks of all classes, or gives what is made instead.
fn add_classes(
    alloc: Global,
    tables: &Tables,
    classes: &[Prefix],
    in_force: &mut InForce<'_, Route>,
    cert: &mut Cert,
) -> Result<(), Made> {
    let mut walk = Walk::new(alloc);
    let ends = LinkEnds::new(tables);
    for class in classes {
        in_force.enter(*class);
        let Some(issuer) = tables.issuer_at(class) else {
            continue;
        };
        let routes = Routes {
            tables,
            ends: &ends,
            in_force: &*in_force,
            home: issuer.home,
        };
        match add_ranks(&mut walk, &routes, class, cert) {
            Ok(()) => {}
            Err(Stop::Circle(nodes)) => return Err(Made::Circle(*class, nodes)),
            Err(Stop::GaveUp) => return Err(Made::GaveUp),
        }
    }
    Ok(())
}

/// How many ranks there will be.
fn count(tables: &Tables, classes: &[Prefix]) -> usize {
    let mut count = 0usize;
    for class in classes {
        if tables.issuer_at(class).is_some() {
            count = count.saturating_add(tables.nodes().len());
        }
    }
    count
}

/// Adds the ranks of a class.
fn add_ranks(walk: &mut Walk, routes: &Routes, class: &Prefix, cert: &mut Cert) -> Result<(), Stop>
    ensures { OnOk result (AddsOf class.now (length routes.now.tables.now.nodes) cert.old cert.new) }
{
    walk.start_anew(routes);
    if add_at_once(walk, routes, class, cert)? {
        return Ok(());
    }
    add_each(walk, routes, class, cert)
}

/// Adds the ranks of a class at once, where a class before it has ranks: these have the names of all nodes, in their order. Otherwise
/// it is `false`.
fn add_at_once(
    walk: &mut Walk,
    routes: &Routes,
    class: &Prefix,
    cert: &mut Cert,
) -> Result<bool, Stop>
    ensures yes { result ≡ Ok true → AddsOf class.now (length routes.now.tables.now.nodes) cert.old cert.new }
    ensures no { result ≡ Ok false → cert.new ≡ cert.old }
{
    let rows = cert.rows().len();
    let nodes = routes.tables.nodes().len();
    if rows < nodes {
        return Ok(false);
    }
    let ranks = all_ranks(walk, routes)?;
    Ok(cert.repeat_run(rows - nodes, *class, &ranks[..nodes])?)
}

/// The ranks of all nodes, in their order, and 0 behind them.
fn all_ranks(walk: &mut Walk, routes: &Routes) -> Result<[u16; MOST_NODES], Stop> {
    let mut ranks = [0; MOST_NODES];
    for i in 0..routes.tables.nodes().len() {
        ranks[i] = walk.rank(routes, NodeNo::new(i))?;
    }
    Ok(ranks)
}

/// Adds the ranks of a class one by one.
fn add_each(walk: &mut Walk, routes: &Routes, class: &Prefix, cert: &mut Cert) -> Result<(), Stop>
    ensures { OnOk result (AddsOf class.now (length routes.now.tables.now.nodes) cert.old cert.new) }
{
    for (i, row) in routes.tables.nodes().iter().enumerate() {
        let rank = walk.rank(routes, NodeNo::new(i))?;
        if !cert.add_rank(row.name, *class, rank)? {
            return Err(Stop::GaveUp);
        }
    }
    Ok(())
}
