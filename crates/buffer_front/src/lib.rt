//! Bytes put at the front of a caller's buffer.
#![tactic(auto)]

ghost use Rattle.std.specs.Prelude.{◌≡◌, ◌<◌, true, false, length};
ghost use Rattle.buffer_front.specs.Fronts.{with_front};

/// Puts bytes at the front of a buffer, where that has room for them. Returns whether it has.
pub fn put_front(bytes: &[u8], buffer: &mut [u8]) -> bool
    ensures put { result ≡ true → buffer.new ≡ with_front bytes.now buffer.old }
    ensures room { result ≡ false → length buffer.old < length bytes.now }
    ensures unchanged { result ≡ false → buffer.new ≡ buffer.old }
{
    if bytes.len() > buffer.len() {
        return false;
    }
    buffer[..bytes.len()].copy_from_slice(bytes);
    true
}
