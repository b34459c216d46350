//! The lines of a printed trace.
ghost use Rattle.std.specs.Prelude.{◌≡◌, ◌==◌, ◌≤◌, MatchOption, Some, None};
ghost use Rattle.std.specs.Result.{result_map_both};
ghost use Rattle.replay_script.specs.Words.{word_and_rest, number_of};
ghost use Rattle.replay_script.specs.Lines.{own_link};
ghost use Rattle.trace_view.specs.Lines.{ask_line, output_line, put_line, seen, step_line};

use crate::fault::LineFault;
use card_digits::{LinkNo, NodeNo, all_digits, cut, decimal};
use net_rows::Tables;
use step_rules::is_link_of;

/// A line with a node: something came in there, as the line of this number of the script says.
#[derive(Clone, Copy)]
pub struct Step {
    pub number: u64,
    pub node: NodeNo,
}

/// Where something goes that a node puts out.
#[derive(Clone, Copy)]
pub enum Way {
    /// On a link. The node's puts on it count from 1.
    Put { link: LinkNo, serial: u64 },
    /// To the acquirer.
    Answer,
    /// To the node's own host. The node's asks count from 1.
    Ask(u64),
    /// To the books of the node's own host.
    Post,
}

/// The bytes before the first space, and those behind it. None where there is no space.
fn word_and_rest(text: &[u8]) -> Option<(&[u8], &[u8])>
    ensures { MatchOption result (word_and_rest text.now ≡ None) (λ p. word_and_rest text.now ≡ Some (p.0.now, p.1.now)) }
{
    cut(text, b' ')
}

/// The number that one to ten digits write.
fn number_of(text: &[u8]) -> Option<u64>
    ensures { result ≡ number_of 10 text.now }
{
    if text.is_empty() || text.len() > 10 || !all_digits(text) {
        return None;
    }
    Some(decimal(text))
}

/// The link of this name, where the node is one of its ends.
fn own_link(tables: &Tables, node: NodeNo, name: &[u8]) -> Option<LinkNo>
    ensures { result ≡ own_link tables.now node name.now }
{
    let link = tables.link_of(name)?;
    if is_link_of(tables, node, link) {
        Some(link)
    } else {
        None
    }
}

/// `NUMBER NODE`.
pub(crate) fn read_step(tables: &Tables, line: &[u8]) -> Result<Step, LineFault>
    ensures { result ≡ step_line tables.now line.now }
{
    let (number, name) = word_and_rest(line).ok_or(LineFault::Malformed)?;
    let number = number_of(number).ok_or(LineFault::Malformed)?;
    let node = tables.node_of(name).ok_or(LineFault::UnknownNode)?;
    Ok(Step { number, node })
}

/// `LINK SERIAL BYTES`.
fn read_put<'t>(tables: &Tables, node: NodeNo, rest: &'t [u8]) -> Result<(Way, &'t [u8]), LineFault>
    ensures { result_map_both seen (λ e. e) result ≡ put_line tables.now node rest.now }
{
    let (name, behind) = word_and_rest(rest).ok_or(LineFault::Malformed)?;
    let (serial, bytes) = word_and_rest(behind).ok_or(LineFault::Malformed)?;
    let serial = number_of(serial).ok_or(LineFault::Malformed)?;
    let link = own_link(tables, node, name).ok_or(LineFault::UnknownLink)?;
    Ok((Way::Put { link, serial }, bytes))
}

/// `NUMBER BYTES`.
fn read_ask(rest: &[u8]) -> Result<(Way, &[u8]), LineFault>
    ensures { result_map_both seen (λ e. e) result ≡ ask_line rest.now }
{
    let (number, bytes) = word_and_rest(rest).ok_or(LineFault::Malformed)?;
    let number = number_of(number).ok_or(LineFault::Malformed)?;
    Ok((Way::Ask(number), bytes))
}

/// What goes out of a node, and where: the line behind its two spaces.
pub(crate) fn read_output<'t>(
    tables: &Tables,
    node: NodeNo,
    line: &'t [u8],
) -> Result<(Way, &'t [u8]), LineFault>
    ensures { result_map_both seen (λ e. e) result ≡ output_line tables.now node line.now }
{
    let (word, rest) = word_and_rest(line).ok_or(LineFault::Malformed)?;
    if word == b"put".as_slice() {
        read_put(tables, node, rest)
    } else if word == b"answer".as_slice() {
        Ok((Way::Answer, rest))
    } else if word == b"ask".as_slice() {
        read_ask(rest)
    } else if word == b"post".as_slice() {
        Ok((Way::Post, rest))
    } else {
        Err(LineFault::Malformed)
    }
}
