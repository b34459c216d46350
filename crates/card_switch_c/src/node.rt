//! A node.
ghost use Rattle.std.specs.Prelude.{◌≡◌, ◌≢◌, None, Some, IfErr, IfOk, IfSome};
ghost use Rattle.card_switch_c.specs.Nodes.{Makes, make_status, refusal_told, TellsInput, TellsHandle, GivesOutput, GivesOutputOf, FindsLink, FindsLinkOf, NamesLink, NamesLinkOf, refused_message, refused_element};
ghost use Rattle.node_calls.specs.Making.{node_in};
ghost use Rattle.std.specs.Prelude.{Ok, Err};

use crate::messages::{fault_element, fault_number};
use crate::status::{DONE, EMPTY, FAULT, NO_MEMORY, REFUSED, TOO_SMALL, UNKNOWN};
use buffer_front::put_front;
use network_law::StepFault;
use node_calls::{
    CallFault, MakeFault, NodeInput, NodeOutput, OutputFault, make_node, output_into, step,
};
use node_handle::NodeHandle;
use std::alloc::Global;
use switch_node::OwnedNode;

/// What a step did: how many outputs it has; or why it was refused, with the fault of the message and the element that this names.
#[repr(C)]
#[derive(Clone, Copy, Debug, PartialEq, Eq)]
pub struct Stepped {
    pub outputs: usize,
    pub refusal: u8,
    pub message_fault: u8,
    pub element: u8,
}

/// Nothing is told.
const NOTHING: Stepped = Stepped {
    outputs: 0,
    refusal: 0,
    message_fault: 0,
    element: 0,
};

fn make_status(fault: MakeFault) -> u8
    ensures { result ≡ make_status fault }
{
    match fault {
        MakeFault::Tables(_) | MakeFault::Ranks(_) => FAULT,
        MakeFault::UnknownNode => UNKNOWN,
        MakeFault::Refused(_) => REFUSED,
        MakeFault::Memory => NO_MEMORY,
    }
}

/// A value on the heap, if there is memory for it.
fn boxed<T: Drop>(alloc: Global, value: T) -> Option<Box<T>>
    ensures { IfSome result (λ b. b.value ≡ value) }
{
    match Box::new(alloc, value) {
        Ok(boxed) => Some(boxed),
        Err(_) => None,
    }
}

/// The node on the heap, or the status of why there is none.
fn boxed_node(
    alloc: Global,
    tables: &[u8],
    ranks: &[u8],
    name: &[u8],
) -> Result<Box<OwnedNode>, MakeFault>
    ensures ok { IfOk result (λ b. node_in tables.now ranks.now name.now ≡ Ok b.value) }
    ensures fault { IfErr result (λ f. f ≢ MakeFault.Memory → node_in tables.now ranks.now name.now ≡ Err f) }
{
    let node = make_node(alloc, tables, ranks, name)?;
    match boxed(alloc, node) {
        Some(node) => Ok(node),
        None => Err(MakeFault::Memory),
    }
}

/// Makes the node of a name in tables that are accepted with these ranks. What the handle held before is freed.
#[unsafe(no_mangle)]
pub extern "C" fn cs_node_new(
    alloc: Global,
    tables: &[u8],
    ranks: &[u8],
    name: &[u8],
    node: &mut NodeHandle,
) -> u8
    ensures { Makes tables.now ranks.now name.now node.old.value node.new.value result }
{
    match boxed_node(alloc, tables, ranks, name) {
        Ok(boxed) => {
            node.put(boxed);
            DONE
        }
        Err(fault) => make_status(fault),
    }
}

/// Frees a node. The handle holds none afterwards.
#[unsafe(no_mangle)]
pub extern "C" fn cs_node_free(alloc: Global, node: &mut NodeHandle)
    ensures { node.new.value ≡ None }
{
    drop(node.take(alloc));
}

/// The number of the message's fault, 0 where that isn't the reason.
fn refused_message(fault: StepFault) -> u8
    ensures { result ≡ refused_message fault }
{
    match fault {
        StepFault::Decode(fault) => fault_number(fault),
        _ => 0,
    }
}

/// The element that a refusal names, 0 where it names none.
fn refused_element(fault: StepFault) -> u8
    ensures { result ≡ refused_element fault }
{
    match fault {
        StepFault::Decode(fault) => fault_element(fault),
        StepFault::Missing(element) => element,
        _ => 0,
    }
}

fn refusal_told(fault: StepFault) -> Stepped
    ensures { result ≡ refusal_told fault }
{
    Stepped {
        outputs: 0,
        refusal: fault.number(),
        message_fault: refused_message(fault),
        element: refused_element(fault),
    }
}

/// Tells a node an input.
fn tell_node(
    alloc: Global,
    node: &mut OwnedNode,
    input: NodeInput,
    bytes: &[u8],
    stepped: &mut Stepped,
) -> u8
    ensures { TellsInput input bytes.now node.old (Some node.new) stepped.new result }
{
    *stepped = NOTHING;
    match step(alloc, node, input, bytes) {
        Ok(outputs) => {
            *stepped = Stepped {
                outputs,
                refusal: 0,
                message_fault: 0,
                element: 0,
            };
            DONE
        }
        Err(CallFault::Refused(fault)) => {
            *stepped = refusal_told(fault);
            REFUSED
        }
        Err(CallFault::NotAnInput) => UNKNOWN,
        Err(CallFault::Memory) => NO_MEMORY,
    }
}

/// Tells a node an input. Unless it is done, the node stays as it was; unless it is done or refused, all that is told is 0.
#[unsafe(no_mangle)]
pub extern "C" fn cs_node_step(
    alloc: Global,
    node: &mut NodeHandle,
    input: &NodeInput,
    bytes: &[u8],
    stepped: &mut Stepped,
) -> u8
    ensures { TellsHandle input.now bytes.now node.old.value node.new.value stepped.new result }
{
    let Some(mut owned) = node.take(alloc) else {
        *stepped = NOTHING;
        return EMPTY;
    };
    let status = tell_node(alloc, &mut owned, *input, bytes, stepped);
    node.put(owned);
    status
}

/// Gives an output of a node's newest step.
fn give_output(node: &OwnedNode, place: usize, bytes: &mut [u8], output: &mut NodeOutput) -> u8
    ensures { GivesOutput node.now place bytes.old bytes.new output.old output.new result }
{
    match output_into(node, place, bytes) {
        Ok(told) => {
            *output = told;
            DONE
        }
        Err(OutputFault::TooSmall(told)) => {
            *output = told;
            TOO_SMALL
        }
        Err(OutputFault::Absent) => UNKNOWN,
    }
}

/// Gives the output at a place, from 0, of a node's newest step. The node stays as it is, and so does `output` where there is none.
#[unsafe(no_mangle)]
pub extern "C" fn cs_node_output(
    alloc: Global,
    node: &mut NodeHandle,
    place: usize,
    bytes: &mut [u8],
    output: &mut NodeOutput,
) -> u8
    ensures given { GivesOutputOf node.old.value place bytes.old bytes.new output.old output.new result }
    ensures same { node.new.value ≡ node.old.value }
{
    let Some(owned) = node.take(alloc) else {
        return EMPTY;
    };
    let status = give_output(&owned, place, bytes, output);
    node.put(owned);
    status
}

fn find_link(node: &OwnedNode, name: &[u8], link: &mut usize) -> u8
    ensures { FindsLink node.now name.now link.old link.new result }
{
    match node.tables().link_of(name) {
        Some(found) => {
            *link = found.place();
            DONE
        }
        None => UNKNOWN,
    }
}

/// Finds the link of a name in the tables of a node, and tells its place there, from 0. The node stays as it is.
#[unsafe(no_mangle)]
pub extern "C" fn cs_node_link(
    alloc: Global,
    node: &mut NodeHandle,
    name: &[u8],
    link: &mut usize,
) -> u8
    ensures found { FindsLinkOf node.old.value name.now link.old link.new result }
    ensures same { node.new.value ≡ node.old.value }
{
    let Some(owned) = node.take(alloc) else {
        return EMPTY;
    };
    let status = find_link(&owned, name, link);
    node.put(owned);
    status
}

fn name_link(node: &OwnedNode, link: usize, name: &mut [u8], name_length: &mut usize) -> u8
    ensures { NamesLink node.now link name.old name.new name_length.old name_length.new result }
{
    let Some(row) = node.tables().links().get(link) else {
        return UNKNOWN;
    };
    let text = row.name.as_slice();
    *name_length = text.len();
    if put_front(text, name) {
        DONE
    } else {
        TOO_SMALL
    }
}

/// Gives the name of the link at a place of the tables of a node. The node stays as it is, and so does the length where there is none.
#[unsafe(no_mangle)]
pub extern "C" fn cs_node_link_name(
    alloc: Global,
    node: &mut NodeHandle,
    link: usize,
    name: &mut [u8],
    name_length: &mut usize,
) -> u8
    ensures named { NamesLinkOf node.old.value link name.old name.new name_length.old name_length.new result }
    ensures same { node.new.value ≡ node.old.value }
{
    let Some(owned) = node.take(alloc) else {
        return EMPTY;
    };
    let status = name_link(&owned, link, name, name_length);
    node.put(owned);
    status
}
