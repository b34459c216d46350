//! The first line of a message's block behind its number.
ghost use Rattle.std.specs.Prelude.{◌≡◌, ◌++◌, codes, length};
ghost use Rattle.message_elements.specs.Types.{kind_text};

use message_elements::Kind;

/// The line of a type.
pub(crate) fn kind_line(kind: Kind) -> &'static [u8]
    ensures text { result.now ≡ codes "type " ++ (kind_text kind ++ codes "\n") }
    ensures size { length result.now ≡ 10 }
{
    match kind {
        Kind::K0100 => b"type 0100\n",
        Kind::K0101 => b"type 0101\n",
        Kind::K0110 => b"type 0110\n",
        Kind::K0120 => b"type 0120\n",
        Kind::K0121 => b"type 0121\n",
        Kind::K0130 => b"type 0130\n",
        Kind::K0400 => b"type 0400\n",
        Kind::K0401 => b"type 0401\n",
        Kind::K0410 => b"type 0410\n",
        Kind::K0420 => b"type 0420\n",
        Kind::K0421 => b"type 0421\n",
        Kind::K0430 => b"type 0430\n",
    }
}
