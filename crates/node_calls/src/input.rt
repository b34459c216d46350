//! Inputs by numbers.
ghost use Rattle.std.specs.Prelude.{◌≡◌, IfOk, IfSome, Some, None, if◌then◌else◌};
ghost use Rattle.std.specs.Option.{option_map};
ghost use Rattle.std.specs.Result.{result_ok};
ghost use Rattle.card_digits.specs.Reading.{read_digits};
ghost use Rattle.message_elements.specs.Codes.{read_code};
ghost use Rattle.network_law.specs.Entries.{Enter, LinkUp, LinkDown, HostAnswer, NewDate};
ghost use Rattle.network_law.specs.Runs.{NamesOwnLink};
ghost use Rattle.network_law.specs.Tables.{is_link_of};
ghost use Rattle.switch_node.specs.Inputs.{input_of};
ghost use Rattle.node_calls.specs.Inputs.{kind_of, lend_in, input_of_kind, input_in};

use card_digits::{DateLabel, LinkNo};
use message_elements::Code;
use replay_script::read_loan;
use shared_bytes::SharedBytes;
use std::alloc::{AllocError, Global};
use switch_node::{Case, Input, OwnedNode};

/// What comes to a node, by numbers.
#[repr(C)]
#[derive(Clone, Copy, Debug, PartialEq, Eq)]
pub struct NodeInput {
    /// The serial of a packet, or the number of an ask.
    pub number: u64,
    /// The place of a link in the tables, from 0.
    pub link: usize,
    /// The number of an `InputKind`.
    pub kind: u8,
}

/// The kinds of inputs, and what is told with each; their numbers are 1 to 8, in this order.
#[derive(Clone, Copy, Debug, PartialEq, Eq)]
pub enum InputKind {
    /// The bytes of a message that an acquirer enters.
    Enter,
    /// A link of the node, a serial, and the bytes of the packet that came by the link with it.
    Take,
    /// A link of the node.
    LinkUp,
    /// A link of the node.
    LinkDown,
    Tick,
    /// The number of an ask, and the two bytes of the host's code.
    HostAnswer,
    /// The four digits of the new settlement date.
    NewDate,
    /// The bytes of an order to lend, as a script writes it: `LENDER BORROWER CARD MMDD AMOUNT`; the lender is the node.
    Lend,
}

fn kind_of(number: u8) -> Option<InputKind>
    ensures { result ≡ kind_of number }
{
    match number {
        1 => Some(InputKind::Enter),
        2 => Some(InputKind::Take),
        3 => Some(InputKind::LinkUp),
        4 => Some(InputKind::LinkDown),
        5 => Some(InputKind::Tick),
        6 => Some(InputKind::HostAnswer),
        7 => Some(InputKind::NewDate),
        8 => Some(InputKind::Lend),
        _ => None,
    }
}

/// The link at a place of the tables, where the node is one of its ends.
fn own_link(node: &OwnedNode, link: usize) -> Option<LinkNo>
    ensures { result ≡ if is_link_of node.now.t node.now.n link then Some link else None }
{
    if link >= node.tables().links().len() {
        return None;
    }
    let link = LinkNo::new(link);
    if node.has_link(link) {
        Some(link)
    } else {
        None
    }
}

/// Bytes that an acquirer enters.
fn entered(alloc: Global, bytes: &[u8]) -> Result<Option<Case>, AllocError>
    ensures { IfOk result (λ case. option_map input_of case ≡ Some (Enter bytes.now)) }
{
    let bytes = SharedBytes::from_slice(alloc, bytes)?;
    Ok(Some(Case::Enter(bytes)))
}

/// A packet that came by a link of the node.
fn taken(
    alloc: Global,
    node: &OwnedNode,
    told: NodeInput,
    bytes: &[u8],
) -> Result<Option<Case>, AllocError>
    ensures { IfOk result (λ case. option_map input_of case ≡ input_of_kind node.now.t node.now.n told bytes.now InputKind.Take) }
{
    let Some(link) = own_link(node, told.link) else {
        return Ok(None);
    };
    let bytes = SharedBytes::from_slice(alloc, bytes)?;
    Ok(Some(Case::Take(link, told.number, bytes)))
}

/// A link of the node comes up.
fn link_up(node: &OwnedNode, link: usize) -> Option<Case>
    ensures { option_map input_of result ≡ if is_link_of node.now.t node.now.n link then Some (LinkUp link) else None }
{
    let link = own_link(node, link)?;
    Some(Case::LinkUp(link))
}

/// A link of the node goes down.
fn link_down(node: &OwnedNode, link: usize) -> Option<Case>
    ensures { option_map input_of result ≡ if is_link_of node.now.t node.now.n link then Some (LinkDown link) else None }
{
    let link = own_link(node, link)?;
    Some(Case::LinkDown(link))
}

/// The host's code for an ask.
fn host_answer(ask: u64, bytes: &[u8]) -> Option<Case>
    ensures { option_map input_of result ≡ option_map (λ code. HostAnswer ask code) (read_code bytes.now) }
{
    let code = Code::read(bytes)?;
    Some(Case::HostAnswer(ask, code))
}

/// A new settlement date.
fn new_date(bytes: &[u8]) -> Option<Case>
    ensures { option_map input_of result ≡ option_map NewDate (result_ok (read_digits 4 4 bytes.now)) }
{
    let date = DateLabel::read(bytes).ok()?;
    Some(Case::NewDate(date))
}

/// An order that the node is to carry out, none where the lender is another.
fn lent(alloc: Global, node: &OwnedNode, bytes: &[u8]) -> Result<Option<Case>, AllocError>
    ensures { IfOk result (λ case. option_map input_of case ≡ lend_in node.now.t node.now.n bytes.now) }
{
    let Some(loan) = read_loan(node.tables(), bytes) else {
        return Ok(None);
    };
    if loan.lender != node.node() {
        return Ok(None);
    }
    let case = Case::lend(alloc, loan.order)?;
    Ok(Some(case))
}

/// An input of a kind.
fn case_of_kind(
    alloc: Global,
    node: &OwnedNode,
    told: NodeInput,
    bytes: &[u8],
    kind: InputKind,
) -> Result<Option<Case>, AllocError>
    ensures { IfOk result (λ case. option_map input_of case ≡ input_of_kind node.now.t node.now.n told bytes.now kind) }
{
    match kind {
        InputKind::Enter => entered(alloc, bytes),
        InputKind::Take => taken(alloc, node, told, bytes),
        InputKind::LinkUp => Ok(link_up(node, told.link)),
        InputKind::LinkDown => Ok(link_down(node, told.link)),
        InputKind::Tick => Ok(Some(Case::Tick)),
        InputKind::HostAnswer => Ok(host_answer(told.number, bytes)),
        InputKind::NewDate => Ok(new_date(bytes)),
        InputKind::Lend => lent(alloc, node, bytes),
    }
}

/// The input that is told, none where the numbers and bytes are no input of this node.
pub(crate) fn read_input(
    alloc: Global,
    node: &OwnedNode,
    told: NodeInput,
    bytes: &[u8],
) -> Result<Option<Input>, AllocError>
    ensures input { IfOk result (λ input. input ≡ input_in node.now.t node.now.n told bytes.now) }
    ensures own { IfOk result (λ input. IfSome input (λ i. NamesOwnLink node.now.t node.now.n i)) }
{
    let Some(kind) = kind_of(told.kind) else {
        return Ok(None);
    };
    match case_of_kind(alloc, node, told, bytes, kind)? {
        Some(case) => Ok(Some(Input::new(case))),
        None => Ok(None),
    }
}
