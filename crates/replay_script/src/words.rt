//! The words of a line.
ghost use Rattle.std.specs.Prelude.{◌≡◌, ◌≤◌, ◌<◌, ◌^◌, IfSome, MatchOption, Some, None};
ghost use Rattle.replay_script.specs.Words.{word_and_rest, number_of, amount_of};

use card_digits::{Amount, all_digits, cut, decimal};

/// The bytes before the first space, and those behind it. None where there is no space.
pub(crate) fn word_and_rest(text: &[u8]) -> Option<(&[u8], &[u8])>
    ensures { MatchOption result (word_and_rest text.now ≡ None) (λ p. word_and_rest text.now ≡ Some (p.0.now, p.1.now)) }
{
    cut(text, b' ')
}

/// The number that one to so many digits write.
fn number_within(text: &[u8], most: usize) -> Option<u64>
    requires { most ≤ 18 }
    ensures number { result ≡ number_of most text.now }
    ensures bound { IfSome result (λ n. n < 10 ^ most) }
{
    if text.is_empty() || text.len() > most || !all_digits(text) {
        return None;
    }
    Some(decimal(text))
}

/// A serial or the number of an ask: one to ten digits.
pub(crate) fn number_of(text: &[u8]) -> Option<u64>
    ensures { result ≡ number_of 10 text.now }
{
    number_within(text, 10)
}

/// An amount of one to twelve digits that isn't 0.
pub(crate) fn amount_of(text: &[u8]) -> Option<Amount>
    ensures { result ≡ amount_of text.now }
{
    let amount = number_within(text, 12)?;
    if amount == 0 {
        return None;
    }
    Some(Amount::new(amount))
}
