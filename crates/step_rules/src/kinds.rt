//! Types of messages, and the codes of answers.
ghost use Rattle.std.specs.Prelude.{◌≡◌};
ghost use Rattle.network_law.specs.Refusals.{entered_kind, taken_kind};
ghost use Rattle.network_law.specs.Decision.{sent_kind, as_code};

use message_elements::{Code, Kind, response_codes};

/// Whether an acquirer may enter a message of this type at its gate.
pub fn entered_kind(kind: Kind) -> bool
    ensures { result ≡ entered_kind kind }
{
    match kind {
        Kind::K0100 | Kind::K0101 => true,
        Kind::K0400 | Kind::K0401 | Kind::K0420 | Kind::K0421 => true,
        Kind::K0110 | Kind::K0120 | Kind::K0121 | Kind::K0130 | Kind::K0410 | Kind::K0430 => false,
    }
}

/// Whether a node takes a message of this type from a link.
pub fn taken_kind(kind: Kind) -> bool
    ensures { result ≡ taken_kind kind }
{
    match kind {
        Kind::K0400 | Kind::K0401 | Kind::K0410 => false,
        Kind::K0100 | Kind::K0101 | Kind::K0110 | Kind::K0120 | Kind::K0121 => true,
        Kind::K0130 | Kind::K0420 | Kind::K0421 | Kind::K0430 => true,
    }
}

/// The type of a reversal or a stand-in advice, put on a link before or not.
pub fn sent_kind(reversal: bool, repeated: bool) -> Kind
    ensures { result ≡ sent_kind reversal repeated }
{
    match (reversal, repeated) {
        (true, true) => Kind::K0421,
        (true, false) => Kind::K0420,
        (false, true) => Kind::K0121,
        (false, false) => Kind::K0120,
    }
}

/// The code of an answer as it is handed on: a duplicate is not told of, but becomes another code.
pub fn as_code(other: Code, code: Code) -> Code
    ensures { result ≡ as_code other code }
{
    if code.as_slice() == response_codes::DUPLICATE_TRANSMISSION.as_slice() {
        other
    } else {
        code
    }
}
