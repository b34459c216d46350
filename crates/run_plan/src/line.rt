//! A line of a plan.
ghost use Rattle.std.specs.Prelude.{◌≡◌, ◌≤◌, ◌<◌, ◌^◌, Some, None, IfSome, MatchOption};
ghost use Rattle.std.specs.Option.{option_map};
ghost use Rattle.card_digits.specs.Numbers.{pad11};
ghost use Rattle.replay_script.specs.Words.{word_and_rest, number_of, amount_of};
ghost use Rattle.run_plan.specs.Lines.{between, numbered, host, link_and_number, delay, setting, line_of, read_line};

use crate::faults::Delay;
use card_digits::{Amount, LinkNo, NodeNo, all_digits, cut, decimal, pad11};
use net_rows::Tables;
use replay_script::{Loan, read_loan};

/// What stands before the first session.
#[derive(Clone, Copy)]
pub(crate) enum Setting {
    Host(NodeNo, Amount),
    Lose(LinkNo, u16),
    Delay(LinkNo, Delay),
    Repeat(LinkNo, u16),
    Lend(Loan),
}

/// What a line behind the head says, if it isn't the end.
#[derive(Clone, Copy)]
pub(crate) enum PlanLine<'a> {
    Setting(Setting),
    /// The padded id of an acquirer.
    Session([u8; 11]),
    Send(&'a [u8]),
}

/// The bytes before the first space, and those behind it. None where there is no space.
fn word_and_rest(text: &[u8]) -> Option<(&[u8], &[u8])>
    ensures { MatchOption result (word_and_rest text.now ≡ None) (λ p. word_and_rest text.now ≡ Some (p.0.now, p.1.now)) }
{
    cut(text, b' ')
}

/// The number that one to so many digits write.
fn number_of(text: &[u8], digits: usize) -> Option<u64>
    requires { digits ≤ 12 }
    ensures number { result ≡ number_of digits text.now }
    ensures bound { IfSome result (λ n. n < 10 ^ digits) }
{
    if text.is_empty() || text.len() > digits || !all_digits(text) {
        return None;
    }
    Some(decimal(text))
}

/// A number of one to ten digits that lies between these two.
fn between(text: &[u8], least: u64, most: u64) -> Option<u64>
    ensures number { result ≡ between least most text.now }
    ensures bound { IfSome result (λ n. n ≤ most) }
{
    let number = number_of(text, 10)?;
    if least <= number && number <= most {
        Some(number)
    } else {
        None
    }
}

/// `WORD N`, and N lies between these two.
pub(crate) fn numbered(line: &[u8], word: &[u8], least: u64, most: u64) -> Option<u64>
    ensures { result ≡ numbered word.now least most line.now }
{
    let (first, rest) = word_and_rest(line)?;
    if first != word {
        return None;
    }
    between(rest, least, most)
}

/// A number from 1 up, of two bytes.
fn small(text: &[u8], most: u16) -> Option<u16>
    ensures { result ≡ between 1 most text.now }
{
    let number = between(text, 1, most as u64)?;
    Some(number as u16)
}

/// One to twelve digits.
fn read_amount(text: &[u8]) -> Option<Amount>
    ensures { result ≡ number_of 12 text.now }
{
    let amount = number_of(text, 12)?;
    Some(Amount::new(amount))
}

/// `NODE AMOUNT`.
fn host(tables: &Tables, rest: &[u8]) -> Option<Setting>
    ensures { result ≡ host tables.now rest.now }
{
    let (name, amount) = word_and_rest(rest)?;
    let node = tables.node_of(name)?;
    Some(Setting::Host(node, read_amount(amount)?))
}

/// `LINK N`.
fn link_and_number(tables: &Tables, rest: &[u8]) -> Option<(LinkNo, u16)>
    ensures { result ≡ link_and_number tables.now rest.now }
{
    let (name, every) = word_and_rest(rest)?;
    let link = tables.link_of(name)?;
    Some((link, small(every, 65535)?))
}

/// `LINK N T`.
fn read_delay(tables: &Tables, rest: &[u8]) -> Option<Setting>
    ensures { result ≡ delay tables.now rest.now }
{
    let (name, behind) = word_and_rest(rest)?;
    let (every, turns) = word_and_rest(behind)?;
    let link = tables.link_of(name)?;
    let delay = Delay {
        every: small(every, 65535)?,
        turns: small(turns, 4000)?,
    };
    Some(Setting::Delay(link, delay))
}

/// The padded id that one to eleven digits write.
fn session(id: &[u8]) -> Option<[u8; 11]>
    ensures { result ≡ option_map (λ n. pad11 id.now) (number_of 11 id.now) }
{
    number_of(id, 11)?;
    Some(pad11(id))
}

/// What a line of this word says, behind the word.
fn read_setting(tables: &Tables, word: &[u8], rest: &[u8]) -> Option<Setting>
    ensures { result ≡ setting tables.now word.now rest.now }
{
    if word == b"host".as_slice() {
        host(tables, rest)
    } else if word == b"lose".as_slice() {
        let (link, every) = link_and_number(tables, rest)?;
        Some(Setting::Lose(link, every))
    } else if word == b"delay".as_slice() {
        read_delay(tables, rest)
    } else if word == b"repeat".as_slice() {
        let (link, every) = link_and_number(tables, rest)?;
        Some(Setting::Repeat(link, every))
    } else if word == b"lend".as_slice() {
        let loan = read_loan(tables, rest)?;
        Some(Setting::Lend(loan))
    } else {
        None
    }
}

/// What a line behind the head says, if it isn't the end. None where its first word is none of a plan, a part is missing or malformed,
/// there is one too many, or a name is unknown.
pub(crate) fn read_line<'a>(tables: &Tables, line: &'a [u8]) -> Option<PlanLine<'a>>
    ensures { option_map line_of result ≡ read_line tables.now line.now }
{
    let (word, rest) = word_and_rest(line)?;
    if word == b"send".as_slice() {
        Some(PlanLine::Send(rest))
    } else if word == b"session".as_slice() {
        Some(PlanLine::Session(session(rest)?))
    } else {
        Some(PlanLine::Setting(read_setting(tables, word, rest)?))
    }
}
