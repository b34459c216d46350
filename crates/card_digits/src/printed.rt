//! Printing of single bytes.
ghost use Rattle.std.specs.Prelude.{◌<◌, [], ◌∷◌};
ghost use Rattle.std.specs.Fmt.{WritesOnOk};

use std::fmt;

/// Writes an ASCII character.
pub(crate) fn write_ascii<W: fmt::Write>(f: &mut fmt::Formatter<W>, byte: u8) -> fmt::Result
    requires { byte < 128 }
    ensures { WritesOnOk W.write_str_gives f.old result (byte ∷ []) f.new }
{
    f.write_char(char::from(byte))
}
