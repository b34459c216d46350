//! What a value of the tree is, where it is of a field's form.
ghost use Rattle.std.specs.Prelude.{◌≡◌, ◌≤◌, ◌<◌, ◌^◌, option_map, IfSome, IfOk};
ghost use Rattle.std.specs.List.{list_all};
ghost use Rattle.toml.specs.View.{view, items_view};
ghost use Rattle.card_digits.specs.Digits.{IsDateLabel, IsId};
ghost use Rattle.table_fields.specs.Values.{whole_in, name_in, id_in, prefix_in, currency_in, date_in, ends_in, is_printable, whole, currency_text, two_names, all_names};

use card_digits::{DateLabel, Id, Name, Prefix, ShortBytes};
use std::alloc::{AllocError, Global};
use toml::Value;

/// A whole number from `least` to `most`.
pub(crate) fn whole_of(value: &Value, least: u64, most: u64) -> Option<u64>
    ensures value { result ≡ whole_in least most (view value.now) }
    ensures within { IfSome result (λ n. (least ≤ n) × (n ≤ most)) }
{
    within(value.as_integer()?, least, most)
}

fn within(number: i64, least: u64, most: u64) -> Option<u64>
    ensures value { result ≡ whole least most number }
    ensures within { IfSome result (λ n. (least ≤ n) × (n ≤ most)) }
{
    if number < 0 {
        return None;
    }
    let number = number as u64;
    if number >= least && number <= most {
        Some(number)
    } else {
        None
    }
}

pub(crate) fn name_of(value: &Value) -> Option<Name>
    ensures { result ≡ name_in (view value.now) }
{
    Name::read(value.as_str()?.as_bytes())
}

pub(crate) fn id_of(value: &Value) -> Option<Id>
    ensures value { result ≡ id_in (view value.now) }
    ensures form { IfSome result IsId }
{
    Id::read(value.as_str()?.as_bytes())
}

pub(crate) fn prefix_of(value: &Value) -> Option<Prefix>
    ensures { result ≡ prefix_in (view value.now) }
{
    Prefix::read(value.as_str()?.as_bytes()).ok()
}

fn all_printable(text: &[u8]) -> bool
    ensures { result ≡ list_all is_printable text.now }
{
    text.iter().all(|byte| *byte >= 0x20 && *byte <= 0x7e)
}

fn currency_text(text: &[u8]) -> Option<ShortBytes<3>>
    ensures { result ≡ currency_text text.now }
{
    if text.len() != 3 || !all_printable(text) {
        return None;
    }
    Some(ShortBytes::from_slice(text))
}

/// Three printable characters.
pub(crate) fn currency_of(value: &Value) -> Option<ShortBytes<3>>
    ensures { result ≡ currency_in (view value.now) }
{
    currency_text(value.as_str()?.as_bytes())
}

/// Four digits.
pub(crate) fn date_of(value: &Value) -> Option<DateLabel>
    ensures value { result ≡ date_in (view value.now) }
    ensures form { IfSome result IsDateLabel }
{
    DateLabel::read(value.as_str()?.as_bytes()).ok()
}

/// Two different names.
pub(crate) fn ends_of(value: &Value) -> Option<(Name, Name)>
    ensures { result ≡ ends_in (view value.now) }
{
    two_names(value.as_array()?)
}

#[tactic(auto, using(crate::proofs::Pairs::not_two, crate::proofs::Pairs::two))]
fn two_names(values: &[Value]) -> Option<(Name, Name)>
    ensures { result ≡ two_names (items_view values.now) }
{
    if values.len() != 2 {
        return None;
    }
    let first = name_of(&values[0])?;
    let second = name_of(&values[1])?;
    if first == second {
        return None;
    }
    Some((first, second))
}

/// The names that the values are, where each is one.
pub(crate) fn all_names(alloc: Global, values: &[Value]) -> Result<Option<Vec<Name>>, AllocError>
    ensures { IfOk result (λ o. option_map (λ v. v.items) o ≡ all_names (items_view values.now)) }
{
    let mut names = Vec::new(alloc);
    for value in values {
        match name_of(value) {
            Some(name) => names.push(name)?,
            None => return Ok(None),
        }
    }
    Ok(Some(names))
}
