//! The frames of an input.
ghost use Rattle.std.specs.Prelude.{◌≡◌, ◌<◌, ◌++◌, length, MatchOption};
ghost use Rattle.message_frames.specs.Frames.{frame, IsCut};

use byteorder::{BigEndian, ByteOrder};

/// The bytes of the first frame, and what stands behind it; none where the frame is cut.
pub(crate) fn first_frame(input: &[u8]) -> Option<(&[u8], &[u8])>
    requires { 0 < length input.now }
    ensures frame { MatchOption result (IsCut input.now) (λ x. (length x.0.now < 65_536) × (input.now ≡ frame x.0.now ++ x.1.now)) }
{
    if input.len() < 2 {
        return None;
    }
    let (head, rest) = input.split_at(2);
    let len = BigEndian::read_u16(head) as usize;
    if rest.len() < len {
        return None;
    }
    Some(rest.split_at(len))
}
