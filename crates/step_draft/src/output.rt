//! Outputs with their bytes.
ghost use Rattle.std.specs.Prelude.{◌≡◌, IfOk};

use kept_messages::Way;
use shared_bytes::SharedBytes;
use std::alloc::AllocError;
use std::marker::Model;

/// An output.
#[derive(Drop)]
pub struct Output {
    way: Way,
    bytes: SharedBytes,
}

impl Model for Output {
    ghost use Rattle.network_law.specs.Entries.{Output};
    ghost use Rattle.step_draft.specs.Outputs.{put_out};

    ghost Value = { Output };

    ghost view = { λ o. put_out o.way o.bytes };
}

impl Output {
    ghost use Rattle.step_draft.specs.Outputs.{put_out, bytes_of};

    /// An output that goes this way, of the bytes that spell its message or packet.
    pub fn new(way: Way, bytes: SharedBytes) -> Output
        ensures { result ≡ put_out way bytes }
    {
        Output { way, bytes }
    }

    /// Where it goes.
    pub fn way(&self) -> Way
        ensures { put_out result (bytes_of self.now) ≡ self.now }
    {
        self.way
    }

    /// The same for another that keeps it, with no copy of its bytes.
    pub(crate) fn share(&self) -> Result<Output, AllocError>
        ensures { IfOk result (λ o. o ≡ self.now) }
    {
        let bytes = self.bytes.share()?;
        Ok(Output {
            way: self.way,
            bytes,
        })
    }

    /// The message, or the packet of a grant.
    pub fn bytes(&self) -> &[u8]
        ensures { result.now ≡ bytes_of self.now }
    {
        self.bytes.as_slice()
    }

    /// The same for those that keep them too.
    pub fn shared_bytes(&self) -> &SharedBytes
        ensures { result.now ≡ bytes_of self.now }
    {
        &self.bytes
    }
}
