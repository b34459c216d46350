//! Words for types and response codes.
ghost use Rattle.std.specs.Prelude.{◌≡◌};
ghost use Rattle.trace_view.specs.Words.{kind_words, code_words};

use message_elements::Kind;

/// A message's type in the words of ISO 8583:1987.
pub(crate) fn kind_words(kind: Kind) -> &'static [u8]
    ensures { result.now ≡ kind_words kind }
{
    match kind {
        Kind::K0100 => b"authorization request",
        Kind::K0101 => b"authorization request repeat",
        Kind::K0110 => b"authorization request response",
        Kind::K0120 => b"authorization advice",
        Kind::K0121 => b"authorization advice repeat",
        Kind::K0130 => b"authorization advice response",
        Kind::K0400 => b"reversal request",
        Kind::K0401 => b"reversal request repeat",
        Kind::K0410 => b"reversal request response",
        Kind::K0420 => b"reversal advice",
        Kind::K0421 => b"reversal advice repeat",
        Kind::K0430 => b"reversal advice response",
    }
}

/// A response code in the words of ISO 8583:1987 (element 39), with a space before them. Nothing for a code that no node gives.
pub(crate) fn code_words(code: &[u8]) -> &'static [u8]
    ensures { result.now ≡ code_words code.now }
{
    match code {
        b"00" => b" approved",
        b"05" => b" do not honor",
        b"14" => b" invalid card number",
        b"57" => b" transaction not permitted to cardholder",
        b"61" => b" exceeds amount limit",
        b"68" => b" response received too late",
        b"91" => b" issuer or switch inoperative",
        b"92" => b" no institution found for routing",
        b"94" => b" duplicate transmission",
        b"96" => b" system malfunction",
        _ => b"",
    }
}
