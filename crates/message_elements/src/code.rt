//! Response codes.
ghost use Rattle.std.specs.Prelude.{◌≡◌, length};
ghost use Rattle.message_elements.specs.Values.{AreOf};
ghost use Rattle.message_elements.specs.declared.form.Class.TheVariants.{Text};

use crate::form::Class;
use crate::values::are_of;
use std::marker::Model;

/// A response code (ISO 8583, element 39): two bytes from 0x20 to 0x7E.
#[derive(Clone, Copy, Debug, PartialEq, Eq)]
pub struct Code {
    bytes: [u8; 2],
}

impl Model for Code {
    ghost use Rattle.std.specs.Prelude.{ℕ, List};
    ghost use Rattle.message_elements.specs.Values.{AreOf};
    ghost use Rattle.message_elements.specs.declared.form.Class.TheVariants.{Text};

    ghost Value = { List ℕ };

    ghost view = { λ a. a.bytes };

    ghost invariant = { λ a. AreOf Text a.bytes };

    ghost inverse = { λ bs. record { bytes = bs } };
}

impl Code {
    ghost use Rattle.message_elements.specs.Codes.{read_code};

    /// The code of two bytes that are known to be text, as `response_codes::APPROVED`.
    pub fn new(bytes: [u8; 2]) -> Code
        requires { AreOf Text bytes }
        ensures { result ≡ bytes }
    {
        Code { bytes }
    }

    /// The code that the bytes are, none where they are not two or one is no text.
    pub fn read(text: &[u8]) -> Option<Code>
        ensures { result ≡ read_code text.now }
    {
        if text.len() != 2 || !are_of(Class::Text, text) {
            return None;
        }
        let mut bytes = [0; 2];
        bytes.copy_from_slice(text);
        Some(Code { bytes })
    }

    /// The two bytes that write the code.
    pub fn as_slice(&self) -> &[u8]
        ensures value { result.now ≡ self.now }
        ensures two { length self.now ≡ 2 }
        ensures text { AreOf Text self.now }
    {
        &self.bytes
    }
}
