//! What came in, as the lines of a script say.
ghost use Rattle.std.specs.Prelude.{◌≡◌, ◌++◌, map, IfOk, OnOk};
ghost use Rattle.std.specs.Option.{option_map};
ghost use Rattle.card_digits.specs.Attempts.{Gives};
ghost use Rattle.card_digits.specs.Lines.{lines};
ghost use Rattle.replay_script.specs.Lines.{event_of, said};
ghost use Rattle.trace_view.specs.Faults.{is_memory};
ghost use Rattle.trace_view.specs.Inputs.{entered_onto, entered_row, event_onto, input_onto, line_at, lines_now, said_at, said_row, said_text};

use crate::cells::add_cell;
use crate::fault::LineFault;
use crate::line::Step;
use crate::packet::{Packet, message_in};
use crate::rows::{WAY, add_front, add_packet, add_step_row};
use crate::words::code_words;
use card_digits::{NodeNo, first_line};
use iso_message::Message;
use net_rows::Tables;
use replay_script::{Command, ScriptLine, read_line};
use std::alloc::{AllocError, Global};

/// The lines of a text.
pub(crate) fn lines_of(alloc: Global, text: &[u8]) -> Result<Vec<&[u8]>, AllocError>
    ensures { IfOk result (λ all. map (λ line. line.now) all.items ≡ lines text.now) }
{
    let mut all = Vec::new(alloc);
    let mut rest = text;
    while let Some((line, behind)) = first_line(rest) {
        all.push(line)?;
        rest = behind;
    }
    Ok(all)
}

/// The line of this number, counted from 1.
fn line_at<'s>(script: &[&'s [u8]], number: u64) -> Option<&'s [u8]>
    ensures { option_map (λ line. line.now) result ≡ line_at (map (λ line. line.now) script.now) number }
{
    if number == 0 {
        return None;
    }
    script.get((number - 1) as usize).copied()
}

/// What a line of a script says, where it speaks of this node.
fn said_at<'s>(tables: &Tables, node: NodeNo, line: &'s [u8]) -> Option<ScriptLine<'s>>
    ensures { option_map said result ≡ said_at tables.now node line.now }
{
    match read_line(tables, line) {
        Some(said) => { if said.node == node { Some(said) } else { None } }
        None => None,
    }
}

/// Adds a line of the script as what came in, with more words behind it.
fn add_said(text: &mut Vec<u8>, line: &[u8], words: &[u8]) -> Result<(), AllocError>
    ensures { OnOk result (text.new.items ≡ text.old.items ++ said_text line.now words.now) }
{
    text.extend_from_slice(b"in ")?;
    text.extend_from_slice(line)?;
    text.extend_from_slice(words)?;
    text.extend_from_slice(b"\n")
}

/// Adds the row of a line of the script, with more words behind it.
fn add_said_row(
    text: &mut Vec<u8>,
    tables: &Tables,
    step: &Step,
    line: &[u8],
    words: &[u8],
) -> Result<(), AllocError>
    ensures { OnOk result (text.new.items ≡ text.old.items ++ said_row tables.now step.now line.now words.now) }
{
    add_front(text, tables, step)?;
    add_said(text, line, words)
}

/// Adds the row of what an acquirer entered.
fn add_entered_row(
    text: &mut Vec<u8>,
    tables: &Tables,
    step: &Step,
    packet: &Packet,
) -> Result<(), AllocError>
    ensures { OnOk result (text.new.items ≡ text.old.items ++ entered_row tables.now step.now packet.now) }
{
    add_front(text, tables, step)?;
    add_cell(text, b"in enter", WAY)?;
    add_packet(text, packet)?;
    text.extend_from_slice(b"\n")
}

/// Adds the row of bytes that an acquirer entered.
fn add_entered(
    text: &mut Vec<u8>,
    message: &mut Message,
    tables: &Tables,
    step: &Step,
    bytes: &[u8],
) -> Result<(), LineFault>
    ensures { Gives is_memory (λ _. text.new.items) result (entered_onto tables.now text.old.items step.now bytes.now) }
{
    match message_in(message, bytes) {
        Ok(Some(packet)) => Ok(add_entered_row(text, tables, step, &packet)?),
        Ok(None) => Err(LineFault::NoMessage),
        Err(_) => Err(LineFault::Memory),
    }
}

/// Adds the row of what a line of the script says. A message that is entered is shown as one that goes out, and behind a host's response code
/// stand its words.
fn add_event(
    text: &mut Vec<u8>,
    message: &mut Message,
    tables: &Tables,
    step: &Step,
    line: &[u8],
    command: &Command<'_>,
) -> Result<(), LineFault>
    ensures { Gives is_memory (λ _. text.new.items) result (event_onto tables.now text.old.items step.now line.now (event_of command.now)) }
{
    match command {
        Command::Enter(bytes) => add_entered(text, message, tables, step, bytes),
        Command::HostAnswer { code, .. } => {
            let words = code_words(code.as_slice());
            Ok(add_said_row(text, tables, step, line, words)?)
        }
        Command::Take { .. }
        | Command::LinkUp(_)
        | Command::LinkDown(_)
        | Command::Tick
        | Command::NewDate(_)
        | Command::Lend(_) => Ok(add_said_row(text, tables, step, line, b"")?),
    }
}

/// Adds the row of an input: what the script says of it, where there is a script.
pub(crate) fn add_input(
    text: &mut Vec<u8>,
    message: &mut Message,
    tables: &Tables,
    script: Option<&[&[u8]]>,
    step: &Step,
) -> Result<(), LineFault>
    ensures { Gives is_memory (λ _. text.new.items) result (input_onto tables.now (lines_now script.entry) text.old.items step.now) }
{
    let Some(script) = script else {
        return Ok(add_step_row(text, tables, step)?);
    };
    let line = line_at(script, step.number).ok_or(LineFault::NotInScript)?;
    match said_at(tables, step.node, line) {
        Some(said) => add_event(text, message, tables, step, line, &said.command),
        None => Err(LineFault::NotInScript),
    }
}
