//! Packets.
ghost use Rattle.std.specs.Prelude.{◌≡◌, IfOk};
ghost use Rattle.link_rings.specs.Rings.{packet};

use shared_bytes::SharedBytes;
use std::alloc::AllocError;
use std::marker::Model;

/// The bytes that a node put on a link, with their serial. Contracts see a serial and a list.
#[derive(Drop)]
pub struct Packet {
    serial: u64,
    bytes: SharedBytes,
}

impl Model for Packet {
    ghost use Rattle.link_rings.specs.Rings.{PacketView, packet};

    ghost Value = { PacketView };

    ghost view = { λ p. packet p.serial p.bytes };
}

impl Packet {
    /// A packet with the serial of its put, which counts from 1 on its link.
    pub fn new(serial: u64, bytes: SharedBytes) -> Packet
        ensures { result ≡ packet serial bytes }
    {
        Packet { serial, bytes }
    }

    /// The packet once more, with the same bytes.
    pub fn share(&self) -> Result<Packet, AllocError>
        ensures { IfOk result (λ p. p ≡ self.now) }
    {
        let bytes = self.bytes.share()?;
        Ok(Packet {
            serial: self.serial,
            bytes,
        })
    }

    /// The serial of its put, which counts from 1 on its link.
    pub fn serial(&self) -> u64
        ensures { result ≡ self.now.serial }
    {
        self.serial
    }

    /// The bytes, which others may hold too.
    pub fn into_bytes(self) -> SharedBytes
        ensures { result ≡ self.bytes }
    {
        let Packet { serial: _, bytes } = self;
        bytes
    }
}
