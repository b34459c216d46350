//! An output.
ghost use Rattle.std.specs.Prelude.{◌≡◌, ◌<◌, ◌≤◌, IfOk, OnErr, Err, Some, length};
ghost use Rattle.std.specs.List.{slice_get};
ghost use Rattle.buffer_front.specs.Fronts.{with_front};
ghost use Rattle.network_law.specs.Entries.{Output};
ghost use Rattle.step_draft.specs.Outputs.{bytes_of};
ghost use Rattle.switch_node.specs.Node.{newest_outputs};
ghost use Rattle.node_calls.specs.declared.output.NodeOutput.{NodeOutput};
ghost use Rattle.node_calls.specs.Outputs.{told};

use buffer_front::put_front;
use kept_messages::Way;
use switch_node::{Output, OwnedNode};
use thiserror::Error;

/// Where an output goes, and how many bytes it has.
#[repr(C)]
#[derive(Clone, Copy, Debug, PartialEq, Eq)]
pub struct NodeOutput {
    /// The serial of a packet, or the number of an ask; else 0.
    pub number: u64,
    /// The place of a packet's link in the tables, from 0; else 0.
    pub link: usize,
    /// How many bytes it has.
    pub length: usize,
    /// 1 is a packet on a link, 2 an answer to the acquirer, 3 an ask of the host, 4 what is posted to the host's books.
    pub way: u8,
}

/// Why an output isn't given.
#[derive(Clone, Copy, Debug, PartialEq, Eq, Error)]
pub enum OutputFault {
    #[error("there is no such output")]
    Absent,
    /// It has more bytes than the buffer; this is what it is.
    #[error("the buffer is too small")]
    TooSmall(NodeOutput),
}

fn told(output: &Output) -> NodeOutput
    ensures { result ≡ told output.now }
{
    let length = output.bytes().len();
    match output.way() {
        Way::Put(link, serial) => NodeOutput {
            number: serial,
            link: link.place(),
            length,
            way: 1,
        },
        Way::Answer => NodeOutput {
            number: 0,
            link: 0,
            length,
            way: 2,
        },
        Way::Ask(ask) => NodeOutput {
            number: ask,
            link: 0,
            length,
            way: 3,
        },
        Way::Post => NodeOutput {
            number: 0,
            link: 0,
            length,
            way: 4,
        },
    }
}

/// The output at a place, from 0, among those of the node's newest step. Its bytes are put at the front of the buffer.
pub fn output_into(
    node: &OwnedNode,
    place: usize,
    buffer: &mut [u8],
) -> Result<NodeOutput, OutputFault>
    ensures put { IfOk result (λ t. (o : Output) × (slice_get (newest_outputs node.now.trace) place ≡ Some o) × (t ≡ told o) × (buffer.new ≡ with_front (bytes_of o) buffer.old)) }
    ensures err { OnErr result (buffer.new ≡ buffer.old) }
    ensures absent { result ≡ Err OutputFault.Absent → length (newest_outputs node.now.trace) ≤ place }
    ensures small { (t : NodeOutput) → result ≡ Err (OutputFault.TooSmall t) → (o : Output) × (slice_get (newest_outputs node.now.trace) place ≡ Some o) × (t ≡ told o) × (length buffer.old < t.length) }
{
    let Some(output) = node.newest_outputs().get(place) else {
        return Err(OutputFault::Absent);
    };
    let told = told(output);
    if put_front(output.bytes(), buffer) {
        Ok(told)
    } else {
        Err(OutputFault::TooSmall(told))
    }
}
