//! A step.
ghost use Rattle.std.specs.Prelude.{◌≡◌, IfOk, OnErr, Err, None};
ghost use Rattle.network_law.specs.declared.fault.StepFault.{StepFault};
ghost use Rattle.node_calls.specs.Inputs.{input_in};
ghost use Rattle.node_calls.specs.Steps.{Steps, IsRefused};

use crate::input::{NodeInput, read_input};
use network_law::StepFault;
use std::alloc::{AllocError, Global};
use switch_node::OwnedNode;
use thiserror::Error;

/// Why a call that tells a node an input changes nothing.
#[derive(Clone, Copy, Debug, PartialEq, Eq, Error)]
pub enum CallFault {
    /// The numbers and bytes are no input of this node.
    #[error("no input of this node")]
    NotAnInput,
    #[error(transparent)]
    Refused(StepFault),
    #[error("no memory")]
    Memory,
}

impl From<AllocError> for CallFault {
    ghost use Rattle.std.specs.Prelude.{◌≡◌};
    ghost use Rattle.node_calls.specs.declared.stepping.CallFault.TheVariants.{Memory};

    ghost from_gives = { λ _ e. e ≡ Memory };

    fn from(_e: AllocError) -> CallFault {
        CallFault::Memory
    }
}

/// Tells a node an input, and returns how many outputs the step has.
pub fn step(
    alloc: Global,
    node: &mut OwnedNode,
    told: NodeInput,
    bytes: &[u8],
) -> Result<usize, CallFault>
    ensures ok { IfOk result (λ count. Steps (input_in node.old.t node.old.n told bytes.now) node.old node.new count) }
    ensures err { OnErr result (node.new ≡ node.old) }
    ensures not_an_input { result ≡ Err CallFault.NotAnInput → input_in node.old.t node.old.n told bytes.now ≡ None }
    ensures refused { (fault : StepFault) → result ≡ Err (CallFault.Refused fault) → IsRefused (input_in node.old.t node.old.n told bytes.now) node.old fault }
{
    let Some(input) = read_input(alloc, node, told, bytes)? else {
        return Err(CallFault::NotAnInput);
    };
    match node.advance(input) {
        Ok(()) => Ok(node.newest_outputs().len()),
        Err(StepFault::Memory) => Err(CallFault::Memory),
        Err(fault) => Err(CallFault::Refused(fault)),
    }
}
