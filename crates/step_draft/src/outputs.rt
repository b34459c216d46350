//! The outputs of an entry.
ghost use Rattle.std.specs.Prelude.{◌≡◌, [], IfOk};

use crate::output::Output;
use std::alloc::{AllocError, Global};
use std::marker::Model;
use std::mem::replace;
use std::slice::from_ref;
use std::sync::Arc;

/// How outputs are kept.
#[derive(Drop)]
pub(crate) enum Held {
    Nothing,
    /// One, as of most entries, which takes no memory besides its bytes.
    One(Output),
    Several(Vec<Output>),
}

/// Outputs, in order.
#[derive(Drop)]
pub struct Outputs {
    held: Held,
}

impl Model for Outputs {
    ghost use Rattle.std.specs.Prelude.{List};
    ghost use Rattle.network_law.specs.Entries.{Output};
    ghost use Rattle.step_draft.specs.Held.{held_outputs};

    ghost Value = { List Output };

    ghost view = { λ o. held_outputs o.held };
}

fn all_shared(alloc: Global, outputs: &[Output]) -> Result<Vec<Output>, AllocError>
    ensures { IfOk result (λ v. v.items ≡ outputs.now) }
{
    let mut again = Vec::with_capacity(alloc, outputs.len())?;
    for output in outputs {
        let one = output.share()?;
        again.push(one)?;
    }
    Ok(again)
}

impl Outputs {
    /// No outputs.
    pub fn new() -> Outputs
        ensures { result ≡ [] }
    {
        Outputs {
            held: Held::Nothing,
        }
    }

    /// The same as these, with no copy of their bytes.
    pub(crate) fn shared(alloc: Global, outputs: &[Output]) -> Result<Outputs, AllocError>
        ensures { IfOk result (λ o. o ≡ outputs.now) }
    {
        let held = match outputs.len() {
            0 => Held::Nothing,
            1 => Held::One(outputs[0].share()?),
            _ => Held::Several(all_shared(alloc, outputs)?),
        };
        Ok(Outputs { held })
    }

    /// What stands in a list, which is empty afterwards.
    pub(crate) fn take(alloc: Global, list: &mut Vec<Output>) -> Outputs
        ensures taken { result ≡ list.old.items }
        ensures empty { list.new.items ≡ [] }
    {
        if list.len() > 1 {
            let mut several = replace(list, Vec::new(alloc));
            several.shrink_to_fit();
            return Outputs {
                held: Held::Several(several),
            };
        }
        match list.pop() {
            Some(output) => Outputs {
                held: Held::One(output),
            },
            None => Outputs {
                held: Held::Nothing,
            },
        }
    }

    /// Leaves no outputs.
    pub fn clear(&mut self)
        ensures { self.new ≡ [] }
    {
        self.held = Held::Nothing;
    }

    /// The outputs in the order in which they go out.
    pub fn as_slice(&self) -> &[Output]
        ensures { result.now ≡ self.now }
    {
        match &self.held {
            Held::Nothing => &[],
            Held::One(output) => from_ref(output),
            Held::Several(outputs) => outputs.as_slice(),
        }
    }
}

/// Outputs with several owners. An entry holds its outputs so: in eight bytes, since most entries of a busy trace are ticks without any.
#[derive(Drop)]
pub struct SharedOutputs {
    outputs: Arc<Outputs>,
}

impl Model for SharedOutputs {
    ghost use Rattle.std.specs.Prelude.{List};
    ghost use Rattle.network_law.specs.Entries.{Output};

    ghost Value = { List Output };

    ghost view = { λ s. s.outputs.value };
}

impl SharedOutputs {
    /// These outputs, with one owner.
    pub(crate) fn new(alloc: Global, outputs: Outputs) -> Result<SharedOutputs, AllocError>
        ensures { IfOk result (λ s. s ≡ outputs) }
    {
        match Arc::new(alloc, outputs) {
            Ok(outputs) => Ok(SharedOutputs { outputs }),
            Err(_) => Err(AllocError),
        }
    }

    /// One owner more. It is refused only where there are as many owners as can be counted.
    pub(crate) fn share(&self) -> Result<SharedOutputs, AllocError>
        ensures { IfOk result (λ s. s ≡ self.now) }
    {
        let outputs = self.outputs.clone()?;
        Ok(SharedOutputs { outputs })
    }

    /// The outputs that are shared.
    pub fn outputs(&self) -> &Outputs
        ensures { result.now ≡ self.now }
    {
        &self.outputs
    }
}

/// The outputs of entries without any, which all such entries hold.
#[derive(Drop)]
pub(crate) struct NoOutputs {
    none: SharedOutputs,
}

impl Model for NoOutputs {
    ghost use Rattle.std.specs.Prelude.{◌≡◌, List, []};
    ghost use Rattle.network_law.specs.Entries.{Output};

    ghost Value = { List Output };

    ghost view = { λ n. n.none };

    ghost invariant = { λ n. n.none ≡ [] };
}

impl NoOutputs {
    pub(crate) fn new(alloc: Global) -> Result<NoOutputs, AllocError> {
        let none = SharedOutputs::new(alloc, Outputs::new())?;
        Ok(NoOutputs { none })
    }

    /// What an entry with these outputs holds. The list is empty afterwards, also where memory is refused.
    pub(crate) fn entry_outputs(
        &self,
        alloc: Global,
        outputs: &mut Vec<Output>,
    ) -> Result<SharedOutputs, AllocError>
        ensures outputs { IfOk result (λ s. s ≡ outputs.old.items) }
        ensures empty { outputs.new.items ≡ [] }
    {
        if outputs.is_empty() {
            return self.none.share();
        }
        SharedOutputs::new(alloc, Outputs::take(alloc, outputs))
    }
}
