//! A line of a script.
ghost use Rattle.std.specs.Prelude.{◌≡◌};
ghost use Rattle.std.specs.Option.{option_map};
ghost use Rattle.replay_script.specs.Lines.{said, enter, take, own_link, link_up, link_down, tick, host_answer, new_date, loan, lend, read_line};

use crate::command::{Command, Loan, ScriptLine};
use crate::words::{amount_of, number_of, word_and_rest};
use card_digits::{Card, DateLabel, LinkNo, NodeNo};
use message_elements::Code;
use net_rows::Tables;
use step_rules::{Lending, is_link_of};

/// `NODE MESSAGE`, the message being the rest of the line.
fn enter<'a>(tables: &Tables, rest: &'a [u8]) -> Option<ScriptLine<'a>>
    ensures { option_map said result ≡ enter tables.now rest.now }
{
    let (name, message) = word_and_rest(rest)?;
    let node = tables.node_of(name)?;
    let command = Command::Enter(message);
    Some(ScriptLine { node, command })
}

/// The link of this name, where the node is one of its ends.
fn own_link(tables: &Tables, node: NodeNo, name: &[u8]) -> Option<LinkNo>
    ensures { result ≡ own_link tables.now node name.now }
{
    let link = tables.link_of(name)?;
    if is_link_of(tables, node, link) {
        Some(link)
    } else {
        None
    }
}

/// `LINK NODE SERIAL`.
fn take<'a>(tables: &Tables, rest: &[u8]) -> Option<ScriptLine<'a>>
    ensures { option_map said result ≡ take tables.now rest.now }
{
    let (link, behind) = word_and_rest(rest)?;
    let (name, serial) = word_and_rest(behind)?;
    let node = tables.node_of(name)?;
    let link = own_link(tables, node, link)?;
    let serial = number_of(serial)?;
    let command = Command::Take { link, serial };
    Some(ScriptLine { node, command })
}

/// `LINK NODE`, where the link comes up.
fn link_up<'a>(tables: &Tables, rest: &[u8]) -> Option<ScriptLine<'a>>
    ensures { option_map said result ≡ link_up tables.now rest.now }
{
    let (link, name) = word_and_rest(rest)?;
    let node = tables.node_of(name)?;
    let command = Command::LinkUp(own_link(tables, node, link)?);
    Some(ScriptLine { node, command })
}

/// `LINK NODE`, where the link goes down.
fn link_down<'a>(tables: &Tables, rest: &[u8]) -> Option<ScriptLine<'a>>
    ensures { option_map said result ≡ link_down tables.now rest.now }
{
    let (link, name) = word_and_rest(rest)?;
    let node = tables.node_of(name)?;
    let command = Command::LinkDown(own_link(tables, node, link)?);
    Some(ScriptLine { node, command })
}

/// `NODE`.
fn tick<'a>(tables: &Tables, name: &[u8]) -> Option<ScriptLine<'a>>
    ensures { option_map said result ≡ tick tables.now name.now }
{
    let node = tables.node_of(name)?;
    let command = Command::Tick;
    Some(ScriptLine { node, command })
}

/// `NODE ASK CODE`, the code being the rest of the line.
fn host_answer<'a>(tables: &Tables, rest: &[u8]) -> Option<ScriptLine<'a>>
    ensures { option_map said result ≡ host_answer tables.now rest.now }
{
    let (name, behind) = word_and_rest(rest)?;
    let (ask, code) = word_and_rest(behind)?;
    let node = tables.node_of(name)?;
    let ask = number_of(ask)?;
    let code = Code::read(code)?;
    let command = Command::HostAnswer { ask, code };
    Some(ScriptLine { node, command })
}

/// `NODE MMDD`.
fn new_date<'a>(tables: &Tables, rest: &[u8]) -> Option<ScriptLine<'a>>
    ensures { option_map said result ≡ new_date tables.now rest.now }
{
    let (name, date) = word_and_rest(rest)?;
    let node = tables.node_of(name)?;
    let command = Command::NewDate(DateLabel::read(date).ok()?);
    Some(ScriptLine { node, command })
}

/// What `NODE BORROWER CARD MMDD AMOUNT` says, behind the word `lend` of a script or of a plan: the first node is to lend to the second.
pub fn read_loan(tables: &Tables, text: &[u8]) -> Option<Loan>
    ensures { result ≡ loan tables.now text.now }
{
    let (lender, behind) = word_and_rest(text)?;
    let (borrower, behind) = word_and_rest(behind)?;
    let (card, behind) = word_and_rest(behind)?;
    let (date, amount) = word_and_rest(behind)?;
    let lender = tables.node_of(lender)?;
    let order = Lending {
        borrower: tables.node_of(borrower)?,
        card: Card::read(card).ok()?,
        date: DateLabel::read(date).ok()?,
        amount: amount_of(amount)?,
    };
    Some(Loan { lender, order })
}

fn lend<'a>(tables: &Tables, rest: &[u8]) -> Option<ScriptLine<'a>>
    ensures { option_map said result ≡ lend tables.now rest.now }
{
    let Loan { lender, order } = read_loan(tables, rest)?;
    Some(ScriptLine {
        node: lender,
        command: Command::Lend(order),
    })
}

/// What a line of a script says. None where its first word is no command, a part is missing or malformed, there is one too many, a
/// name is unknown, or the link is not at the node.
pub fn read_line<'a>(tables: &Tables, line: &'a [u8]) -> Option<ScriptLine<'a>>
    ensures { option_map said result ≡ read_line tables.now line.now }
{
    let (word, rest) = word_and_rest(line)?;
    if word == b"enter".as_slice() {
        enter(tables, rest)
    } else if word == b"take".as_slice() {
        take(tables, rest)
    } else if word == b"up".as_slice() {
        link_up(tables, rest)
    } else if word == b"down".as_slice() {
        link_down(tables, rest)
    } else if word == b"tick".as_slice() {
        tick(tables, rest)
    } else if word == b"host".as_slice() {
        host_answer(tables, rest)
    } else if word == b"date".as_slice() {
        new_date(tables, rest)
    } else if word == b"lend".as_slice() {
        lend(tables, rest)
    } else {
        None
    }
}
