//! The rows of the table.
ghost use Rattle.std.specs.Prelude.{◌≡◌, ◌++◌, IfOk, OnOk};
ghost use Rattle.trace_view.specs.Rows.{cell, code_text, front, heading, key_cells, kind_cells, known_text, other_text, output_row, packet_text, step_row, way_text};

use crate::cells::{add_cell, add_spaces};
use crate::line::{Step, Way};
use crate::packet::{Known, Packet};
use crate::words::{code_words, kind_words};
use bundle_text::{link_name, node_name};
use card_digits::Key;
use itoa::Buffer;
use message_elements::{Code, Kind};
use net_rows::Tables;
use std::alloc::{AllocError, Global};

const LINE: usize = 8;

const NODE: usize = 8;

pub(crate) const WAY: usize = 23;

const TYPE: usize = 4;

const MESSAGE: usize = 30;

const TRACE_NUMBER: usize = 6;

const TIME: usize = 10;

const ACQUIRER: usize = 11;

/// The table's first row, with what its columns are.
pub(crate) fn heading(alloc: Global) -> Result<Vec<u8>, AllocError>
    ensures { IfOk result (λ text. text.items ≡ heading) }
{
    let mut text = Vec::new(alloc);
    add_cell(&mut text, b"line", LINE)?;
    add_cell(&mut text, b"node", NODE)?;
    add_cell(&mut text, b"in/out", WAY)?;
    add_cell(&mut text, b"type", TYPE)?;
    add_cell(&mut text, b"message", MESSAGE)?;
    add_cell(&mut text, b"STAN", TRACE_NUMBER)?;
    add_cell(&mut text, b"time", TIME)?;
    add_cell(&mut text, b"acquirer", ACQUIRER)?;
    text.extend_from_slice(b"code\n")?;
    Ok(text)
}

/// Adds the number of a line and its node.
pub(crate) fn add_front(text: &mut Vec<u8>, tables: &Tables, step: &Step) -> Result<(), AllocError>
    ensures { OnOk result (text.new.items ≡ text.old.items ++ front tables.now step.now) }
{
    let mut buffer = Buffer::new();
    let number = buffer.format(step.number).as_bytes();
    add_cell(text, number, LINE)?;
    add_cell(text, node_name(tables, step.node), NODE)
}

/// Adds the row of an input.
pub(crate) fn add_step_row(
    text: &mut Vec<u8>,
    tables: &Tables,
    step: &Step,
) -> Result<(), AllocError>
    ensures { OnOk result (text.new.items ≡ text.old.items ++ step_row tables.now step.now) }
{
    add_front(text, tables, step)?;
    text.extend_from_slice(b"in\n")
}

/// Adds where something goes.
fn add_way(text: &mut Vec<u8>, tables: &Tables, way: &Way) -> Result<(), AllocError>
    ensures { OnOk result (text.new.items ≡ text.old.items ++ way_text tables.now way.now) }
{
    let mut buffer = Buffer::new();
    match way {
        Way::Put { link, serial } => {
            text.extend_from_slice(b"put ")?;
            text.extend_from_slice(link_name(tables, *link))?;
            text.push(b' ')?;
            text.extend_from_slice(buffer.format(*serial).as_bytes())
        }
        Way::Answer => text.extend_from_slice(b"answer"),
        Way::Ask(number) => {
            text.extend_from_slice(b"ask ")?;
            text.extend_from_slice(buffer.format(*number).as_bytes())
        }
        Way::Post => text.extend_from_slice(b"post"),
    }
}

/// Adds the cell of where something goes.
fn add_way_cell(text: &mut Vec<u8>, tables: &Tables, way: &Way) -> Result<(), AllocError>
    ensures { OnOk result (text.new.items ≡ text.old.items ++ cell 23 (way_text tables.now way.now)) }
{
    let start = text.len();
    add_way(text, tables, way)?;
    let long = text.len() - start;
    add_spaces(text, WAY.saturating_sub(long))?;
    text.extend_from_slice(b"  ")
}

/// Adds the cells of a type: its number and its words.
fn add_kind_cells(text: &mut Vec<u8>, kind: Kind) -> Result<(), AllocError>
    ensures { OnOk result (text.new.items ≡ text.old.items ++ kind_cells kind) }
{
    add_cell(text, kind.as_slice(), TYPE)?;
    add_cell(text, kind_words(kind), MESSAGE)
}

/// Adds the cells of a key, each with a hyphen where there is none.
fn add_key_cells(text: &mut Vec<u8>, key: &Option<Key>) -> Result<(), AllocError>
    ensures { OnOk result (text.new.items ≡ text.old.items ++ key_cells key.now) }
{
    match key {
        Some(key) => {
            add_cell(text, &key.trace, TRACE_NUMBER)?;
            add_cell(text, &key.time, TIME)?;
            add_cell(text, &key.acquirer, ACQUIRER)
        }
        None => {
            add_cell(text, b"-", TRACE_NUMBER)?;
            add_cell(text, b"-", TIME)?;
            add_cell(text, b"-", ACQUIRER)
        }
    }
}

/// Adds a response code and its words, or a hyphen where there is none.
fn add_code(text: &mut Vec<u8>, code: &Option<Code>) -> Result<(), AllocError>
    ensures { OnOk result (text.new.items ≡ text.old.items ++ code_text code.now) }
{
    match code {
        Some(code) => {
            text.extend_from_slice(code.as_slice())?;
            text.extend_from_slice(code_words(code.as_slice()))
        }
        None => text.extend_from_slice(b"-"),
    }
}

/// Adds what is shown of a message.
fn add_known(text: &mut Vec<u8>, known: &Known) -> Result<(), AllocError>
    ensures { OnOk result (text.new.items ≡ text.old.items ++ known_text known.now) }
{
    add_kind_cells(text, known.kind)?;
    add_key_cells(text, &known.key)?;
    add_code(text, &known.code)
}

/// Adds the cells of what is no message.
fn add_other(text: &mut Vec<u8>, words: &[u8]) -> Result<(), AllocError>
    ensures { OnOk result (text.new.items ≡ text.old.items ++ other_text words.now) }
{
    add_cell(text, b"-", TYPE)?;
    text.extend_from_slice(words)
}

/// Adds what is shown of what goes out.
pub(crate) fn add_packet(text: &mut Vec<u8>, packet: &Packet) -> Result<(), AllocError>
    ensures { OnOk result (text.new.items ≡ text.old.items ++ packet_text packet.now) }
{
    match packet {
        Packet::Message(known) => add_known(text, known),
        Packet::Grant => add_other(text, b"grant"),
        Packet::GrantTaken => add_other(text, b"grant taken"),
    }
}

/// Adds the row of an output.
pub(crate) fn add_output_row(
    text: &mut Vec<u8>,
    tables: &Tables,
    step: &Step,
    way: &Way,
    packet: &Packet,
) -> Result<(), AllocError>
    ensures { OnOk result (text.new.items ≡ text.old.items ++ output_row tables.now step.now way.now packet.now) }
{
    add_front(text, tables, step)?;
    add_way_cell(text, tables, way)?;
    add_packet(text, packet)?;
    text.extend_from_slice(b"\n")
}
