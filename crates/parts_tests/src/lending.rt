//! An order to lend nothing, and how much the lender may approve in a day.
use card_digits::{Amount, Card, DateLabel, DigitFault, NodeNo, Prefix};
use net_rows::Tables;
use net_tables::read_tables;
use network_law::StepFault;
use rank_cert::{Cert, read_cert};
use sample_networks::Sample;
use std::alloc::{AllocError, Global};
use std::test::Fail;
use step_rules::Lending;
use switch_node::{Case, Input, Node, Outputs};
use table_checker::{Accepted, check};

/// The grant of all that A may lend B.
const GRANT: &[u8] = b"GRNT000000010010000000001000000010031641111111111111110314000000000300";

/// An order to lend B an amount, in twelve digits.
fn order(amount: &[u8]) -> Result<Lending, DigitFault> {
    Ok(Lending {
        borrower: NodeNo::new(1),
        card: Card::read(b"4111111111111111")?,
        date: DateLabel::read(b"0314")?,
        amount: Amount::read(amount)?,
    })
}

fn lend(
    alloc: Global,
    node: &mut Node,
    order: Lending,
    outputs: &mut Outputs,
) -> Result<Option<StepFault>, AllocError> {
    let case = Case::lend(alloc, order)?;
    Ok(node.step(Input::new(case), outputs).err())
}

/// The node refuses to lend nothing, has done nothing then, and lends all that it may.
fn lends_all_but_nothing(alloc: Global, node: &mut Node) -> Result<(), Fail> {
    let mut outputs = Outputs::new();
    let nothing = lend(alloc, node, order(b"000000000000")?, &mut outputs)?;
    if nothing != Some(StepFault::NotLent)
        || !outputs.as_slice().is_empty()
        || !node.trace().is_empty()
    {
        return Err("nothing is lent".into());
    }
    let all = lend(alloc, node, order(b"000000000300")?, &mut outputs)?;
    match outputs.as_slice() {
        [output] if all.is_none() && output.bytes() == GRANT => Ok(()),
        _ => Err("all is not lent".into()),
    }
}

fn lends_on_accepted(alloc: Global, accepted: &Accepted<'_>, place: NodeNo) -> Result<(), Fail> {
    if place.place() >= accepted.tables().nodes().len() {
        return Err("node".into());
    }
    match Node::new(alloc, accepted, place) {
        Ok(mut node) => lends_all_but_nothing(alloc, &mut node),
        Err(_) => Err("memory".into()),
    }
}

fn lends_on_ranked(alloc: Global, tables: &Tables, cert: &Cert) -> Result<(), Fail> {
    match check(alloc, tables, cert) {
        Ok(accepted) => lends_on_accepted(alloc, &accepted, NodeNo::new(0)),
        Err(_) => Err("not accepted".into()),
    }
}

fn lends_on_tables(alloc: Global, tables: &Tables) -> Result<(), Fail> {
    let class = Prefix::read(b"45")?;
    if tables.day_at(NodeNo::new(0), &class).value() != 300 {
        return Err("limit of a day".into());
    }
    match read_cert(alloc, Sample::SharedLimits.ranks().as_bytes()) {
        Ok(cert) => lends_on_ranked(alloc, tables, &cert),
        Err(_) => Err("ranks".into()),
    }
}

fn tables(alloc: Global) -> Result<Tables, Fail> {
    let text = Sample::SharedLimits.tables(alloc)?;
    match read_tables(alloc, text.as_bytes()) {
        Ok(tables) => Ok(tables),
        Err(_) => Err("tables".into()),
    }
}

#[test]
fn an_order_to_lend_nothing(rt: HostRuntime) -> Result<(), Fail> {
    match tables(rt.alloc()) {
        Ok(tables) => lends_on_tables(rt.alloc(), &tables),
        Err(fail) => Err(fail),
    }
}
