//! What a node puts on its links.
ghost use Rattle.std.specs.Prelude.{◌≡◌, ◌∷◌, []};
ghost use Rattle.link_rings.specs.Rings.{Sends};
ghost use Rattle.net_threads.specs.Station.{puts_of};

use kept_messages::Way;
use link_rings::{OutRings, Packet};
use switch_node::Output;

fn send_one(rings: &mut OutRings, output: &Output)
    ensures { Sends (puts_of (output.now ∷ [])) rings.old rings.new }
{
    if let Way::Put(link, serial) = output.way() {
        if let Ok(bytes) = output.shared_bytes().share() {
            rings.send(link, Packet::new(serial, bytes));
        }
    }
}

/// Puts outputs on the rings of their links, in order. One that meets a full ring, or no memory, is lost.
pub(crate) fn send_all(rings: &mut OutRings, outputs: &[Output])
    ensures { Sends (puts_of outputs.now) rings.old rings.new }
{
    for output in outputs {
        send_one(rings, output);
    }
}
