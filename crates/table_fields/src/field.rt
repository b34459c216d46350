//! The fields of a row.
ghost use Rattle.std.specs.Prelude.{◌≡◌, ◌≤◌, ◌<◌, ◌^◌, IfOk};

use crate::fault::TableFault;
use crate::keys::{get, has_only};
use crate::place::{Key, Place, Table};
use crate::value::{all_names, currency_of, date_of, ends_of, id_of, name_of, prefix_of, whole_of};
use card_digits::{Amount, DateLabel, Id, MOST_AMOUNT, Name, Prefix, ShortBytes};
use std::alloc::Global;
use toml::Value;

/// A row of the text, and where it stands.
#[derive(Clone, Copy)]
pub struct Row<'a> {
    pub members: &'a toml::Table,
    pub table: Table,
    pub number: usize,
}

impl<'a> Row<'a> {
    ghost use Rattle.card_digits.specs.Digits.{IsDateLabel, IsId};
    ghost use Rattle.card_digits.specs.Attempts.{Gives};
    ghost use Rattle.table_fields.specs.Faults.{is_memory};
    ghost use Rattle.table_fields.specs.Fields.{Lent, row_view, place_of, field_at, name_at, id_at, currency_at, date_at, whole_at, prefix_at, ends_at, names_at, no_other};

    /// Where the key stands.
    pub fn place(&self, key: Key) -> Place
        ensures { result ≡ place_of (row_view self.now) key }
    {
        Place {
            table: self.table,
            row: self.number,
            key,
        }
    }

    /// A value of another form.
    pub fn bad(&self, key: Key) -> TableFault
        ensures { result ≡ TableFault.BadValue (place_of (row_view self.now) key) }
    {
        TableFault::BadValue(self.place(key))
    }

    /// What stands at the key.
    #[tactic(auto, unfolding(crate::specs::Fields::field_at))]
    fn field(&self, key: Key) -> Result<&'a Value, TableFault>
        ensures { Lent result (field_at (row_view self.now) key) }
    {
        match get(self.members, key.word()) {
            Some(value) => Ok(value),
            None => Err(TableFault::MissingField(self.place(key))),
        }
    }

    /// One to eight letters and digits.
    #[tactic(auto, unfolding(crate::specs::Fields::form_at))]
    pub fn name(&self, key: Key) -> Result<Name, TableFault>
        ensures { result ≡ name_at (row_view self.now) key }
    {
        name_of(self.field(key)?).ok_or(self.bad(key))
    }

    /// At most eleven digits, not all zero.
    #[tactic(auto, unfolding(crate::specs::Fields::form_at))]
    pub fn id(&self, key: Key) -> Result<Id, TableFault>
        ensures value { result ≡ id_at (row_view self.now) key }
        ensures form { IfOk result IsId }
    {
        id_of(self.field(key)?).ok_or(self.bad(key))
    }

    /// One to twelve digits.
    #[tactic(auto, unfolding(crate::specs::Fields::form_at))]
    pub fn prefix(&self, key: Key) -> Result<Prefix, TableFault>
        ensures { result ≡ prefix_at (row_view self.now) key }
    {
        prefix_of(self.field(key)?).ok_or(self.bad(key))
    }

    /// Three printable characters.
    #[tactic(auto, unfolding(crate::specs::Fields::form_at))]
    pub fn currency(&self, key: Key) -> Result<ShortBytes<3>, TableFault>
        ensures { result ≡ currency_at (row_view self.now) key }
    {
        currency_of(self.field(key)?).ok_or(self.bad(key))
    }

    /// Four digits.
    #[tactic(auto, unfolding(crate::specs::Fields::form_at))]
    pub fn date(&self, key: Key) -> Result<DateLabel, TableFault>
        ensures value { result ≡ date_at (row_view self.now) key }
        ensures form { IfOk result IsDateLabel }
    {
        date_of(self.field(key)?).ok_or(self.bad(key))
    }

    /// A whole number from `least` to `most`.
    #[tactic(auto, unfolding(crate::specs::Fields::form_at))]
    pub fn whole(&self, key: Key, least: u64, most: u64) -> Result<u64, TableFault>
        ensures value { result ≡ whole_at least most (row_view self.now) key }
        ensures within { IfOk result (λ n. (least ≤ n) × (n ≤ most)) }
    {
        whole_of(self.field(key)?, least, most).ok_or(self.bad(key))
    }

    /// A whole number of at most twelve digits.
    pub fn amount(&self, key: Key) -> Result<Amount, TableFault>
        ensures { result ≡ whole_at 0 999_999_999_999 (row_view self.now) key }
    {
        let value = self.whole(key, 0, MOST_AMOUNT)?;
        Ok(Amount::new(value))
    }

    /// Two different names.
    #[tactic(auto, unfolding(crate::specs::Fields::form_at))]
    pub fn ends(&self, key: Key) -> Result<(Name, Name), TableFault>
        ensures { result ≡ ends_at (row_view self.now) key }
    {
        ends_of(self.field(key)?).ok_or(self.bad(key))
    }

    /// Names, as many as there are.
    #[tactic(auto, unfolding(crate::specs::Fields::form_at))]
    pub fn names(&self, alloc: Global, key: Key) -> Result<Vec<Name>, TableFault>
        ensures { Gives is_memory (λ v. v.items) result (names_at (row_view self.now) key) }
    {
        let Some(values) = self.field(key)?.as_array() else {
            return Err(self.bad(key));
        };
        match all_names(alloc, values)? {
            Some(names) => Ok(names),
            None => Err(self.bad(key)),
        }
    }

    /// No key but the listed ones.
    pub fn no_other(&self, listed: &[Key]) -> Result<(), TableFault>
        ensures { result ≡ no_other listed.now (row_view self.now) }
    {
        if has_only(self.members, listed) {
            Ok(())
        } else {
            Err(self.bad(Key::Other))
        }
    }
}
