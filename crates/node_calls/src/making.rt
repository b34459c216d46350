//! Making a node.
ghost use Rattle.std.specs.Prelude.{◌≡◌, ◌≢◌, Ok, Err, IfOk, IfErr};
ghost use Rattle.net_rows.specs.Network.{Network};
ghost use Rattle.node_calls.specs.Making.{node_in, with_ranks, at_place};
ghost use Rattle.rank_cert.specs.Reading.{cert_in};
ghost use Rattle.replay_script.specs.Lines.{node_of};

use net_rows::Tables;
use net_tables::{TableFault, read_tables};
use rank_cert::{Cert, CertFault, read_cert};
use std::alloc::Global;
use switch_node::OwnedNode;
use table_checker::Refusal;
use thiserror::Error;

/// Why there is no node.
#[derive(Clone, Copy, Debug, PartialEq, Eq, Error)]
pub enum MakeFault {
    #[error("the tables have a fault")]
    Tables(TableFault),
    #[error("the ranks have a fault")]
    Ranks(CertFault),
    /// The tables have no node of this name.
    #[error("there is no such node")]
    UnknownNode,
    #[error("the tables are refused with these ranks")]
    Refused(Refusal),
    #[error("no memory")]
    Memory,
}

/// The node of a name in tables that are accepted with these ranks, to which nothing came yet. The texts are those that `check` takes, without
/// carriage returns.
pub fn make_node(
    alloc: Global,
    tables: &[u8],
    ranks: &[u8],
    name: &[u8],
) -> Result<OwnedNode, MakeFault>
    ensures ok { IfOk result (λ a. node_in tables.now ranks.now name.now ≡ Ok a) }
    ensures fault { IfErr result (λ f. f ≢ MakeFault.Memory → node_in tables.now ranks.now name.now ≡ Err f) }
{
    match read_tables(alloc, tables) {
        Ok(tables) => node_of_tables(alloc, tables, ranks, name),
        Err(TableFault::Memory) => Err(MakeFault::Memory),
        Err(fault) => Err(MakeFault::Tables(fault)),
    }
}

fn node_of_tables(
    alloc: Global,
    tables: Tables,
    ranks: &[u8],
    name: &[u8],
) -> Result<OwnedNode, MakeFault>
    ensures ok { IfOk result (λ a. with_ranks tables (cert_in ranks.now) name.now ≡ Ok a) }
    ensures fault { IfErr result (λ f. f ≢ MakeFault.Memory → with_ranks tables (cert_in ranks.now) name.now ≡ Err f) }
{
    match read_cert(alloc, ranks) {
        Ok(cert) => node_with_ranks(alloc, tables, &cert, name),
        Err(CertFault::Memory) => Err(MakeFault::Memory),
        Err(fault) => Err(MakeFault::Ranks(fault)),
    }
}

fn node_with_ranks(
    alloc: Global,
    tables: Tables,
    cert: &Cert,
    name: &[u8],
) -> Result<OwnedNode, MakeFault>
    ensures ok { IfOk result (λ a. at_place tables cert.now (node_of tables name.now) ≡ Ok a) }
    ensures fault { IfErr result (λ f. f ≢ MakeFault.Memory → at_place tables cert.now (node_of tables name.now) ≡ Err f) }
{
    let Some(place) = tables.node_of(name) else {
        return Err(MakeFault::UnknownNode);
    };
    match OwnedNode::new(alloc, tables, cert, place) {
        Ok(node) => Ok(node),
        Err(Refusal::Memory) => Err(MakeFault::Memory),
        Err(refusal) => Err(MakeFault::Refused(refusal)),
    }
}
