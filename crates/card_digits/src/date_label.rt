//! Settlement dates.
ghost use Rattle.std.specs.Prelude.{◌≡◌, IfOk};

use crate::card::{DigitFault, read};
use crate::short_bytes::ShortBytes;
use std::marker::Model;

/// Any four digits that stand for a settlement date (ISO 8583, element 15). That they are a month and a day is not asked.
#[derive(Clone, Copy, Debug, PartialEq, Eq, PartialOrd, Ord, Hash)]
pub struct DateLabel {
    digits: ShortBytes<4>,
}

impl Model for DateLabel {
    ghost use Rattle.std.specs.Prelude.{ℕ, List};
    ghost use Rattle.card_digits.specs.Digits.{IsDateLabel};

    ghost Value = { List ℕ };

    ghost view = { λ a. a.digits };

    ghost invariant = { λ a. IsDateLabel a.digits };

    ghost inverse = { λ ds. record { digits = ds } };
}

impl DateLabel {
    ghost use Rattle.card_digits.specs.Digits.{IsDateLabel};
    ghost use Rattle.card_digits.specs.Reading.{read_digits};

    /// The label that ASCII digits write. A byte that is no digit is reported before the length.
    pub fn read(text: &[u8]) -> Result<DateLabel, DigitFault>
        ensures value { result ≡ read_digits 4 4 text.now }
        ensures form { IfOk result IsDateLabel }
    {
        let digits = read(text, 4)?;
        Ok(DateLabel { digits })
    }

    /// The digits in order, as numbers.
    pub fn digits(&self) -> &[u8]
        ensures digits { result.now ≡ self.now }
        ensures form { IsDateLabel result.now }
    {
        self.digits.as_slice()
    }
}
