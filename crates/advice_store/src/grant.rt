//! The packets of grants.
ghost use Rattle.std.specs.Prelude.{◌≡◌};
ghost use Rattle.network_law.specs.Grants.{read_packet};

use network_law::{GrantPacket, read_packet};

/// The grant or acknowledgement that the bytes are exactly. None for all other bytes.
pub fn read_grant(bytes: &[u8]) -> Option<GrantPacket>
    ensures { result ≡ read_packet bytes.now }
{
    read_packet(bytes)
}
