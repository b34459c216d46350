//! What a line of a script says.

use card_digits::{DateLabel, LinkNo, NodeNo};
use message_elements::Code;
use step_rules::Lending;

/// What happens at a node.
#[derive(Clone, Copy, Debug, PartialEq, Eq)]
pub enum Command<'a> {
    /// An acquirer enters the bytes of a message.
    Enter(&'a [u8]),
    /// The node takes what the other end of the link put on it with this serial.
    Take { link: LinkNo, serial: u64 },
    LinkUp(LinkNo),
    LinkDown(LinkNo),
    Tick,
    /// The host answers an ask of the node.
    HostAnswer { ask: u64, code: Code },
    /// The settlement date is another one from now on.
    NewDate(DateLabel),
    /// The node is to lend to another, and not an amount of 0.
    Lend(Lending),
}

/// A node is to lend to another, and not an amount of 0.
#[derive(Clone, Copy, Debug, PartialEq, Eq)]
pub struct Loan {
    pub lender: NodeNo,
    pub order: Lending,
}

/// A line of a script: what a node is told.
#[derive(Clone, Copy, Debug, PartialEq, Eq)]
pub struct ScriptLine<'a> {
    pub node: NodeNo,
    pub command: Command<'a>,
}
