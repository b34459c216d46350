//! The answer to an input.
ghost use Rattle.std.specs.Prelude.{◌≡◌, IfOk};
ghost use Rattle.std.specs.Option.{option_copied};
ghost use Rattle.bundle_text.specs.Answers.{Answers};
ghost use Rattle.refusals_json.specs.Json.{json_line};
ghost use Rattle.card_json.specs.CardJson.{card_data};
ghost use Rattle.card_json.specs.Answers.{CardAnswers, IsJsonOf, json_of, said_with};

use crate::card::card_value;
use answer_input::tables_answer;
use bundle_text::{Answer, Status, TablesQuestion, check_memory_answer};
use card_digits::Card;
use card_view::CardView;
use net_rows::Tables;
use rank_cert::Cert;
use refusals_json::json_line;
use std::alloc::{AllocError, Global};
use table_checker::{Refusal, check};

/// The line of what is said of a card.
fn card_line(
    alloc: Global,
    asked: &CardView<'_>,
    refusal: Option<&Refusal>,
) -> Result<Vec<u8>, AllocError>
    ensures { IfOk result (λ line. line.items ≡ json_line (card_data asked.now.tables.now asked.now.cert.now asked.now.card.now (option_copied refusal.entry))) }
{
    let value = card_value(alloc, asked, refusal)?;
    json_line(alloc, &value)
}

/// The same with the status of the verdict.
fn answer_with(
    alloc: Global,
    asked: &CardView<'_>,
    refusal: Option<&Refusal>,
) -> Result<Answer, AllocError>
    ensures { IfOk result (λ a. a ≡ said_with asked.now.card.now asked.now.tables.now asked.now.cert.now (option_copied refusal.entry)) }
{
    let line = card_line(alloc, asked, refusal)?;
    match refusal {
        Some(_) => Ok(Answer::new(line, Status::Refused)),
        None => Ok(Answer::new(line, Status::Done)),
    }
}

/// The verdict on tables, and what their nodes do with a card.
fn checked(alloc: Global, asked: &CardView<'_>) -> Result<Answer, AllocError>
    ensures { IfOk result (λ a. Answers a (json_of asked.now.card.now asked.now.tables.now asked.now.cert.now)) }
{
    match check(alloc, asked.tables, asked.cert) {
        Ok(_) => answer_with(alloc, asked, None),
        Err(Refusal::Memory) => check_memory_answer(alloc),
        Err(refusal) => answer_with(alloc, asked, Some(&refusal)),
    }
}

/// A card that is asked about.
#[derive(Clone, Copy)]
pub(crate) struct JsonOfCard {
    pub(crate) card: Card,
}

impl TablesQuestion for JsonOfCard {
    ghost is_answer_of = { λ asked. IsJsonOf asked.card };

    fn answer_of(&self, alloc: Global, tables: &Tables, cert: &Cert) -> Result<Answer, AllocError> {
        let card = &self.card;
        checked(alloc, &CardView { tables, cert, card })
    }
}

/// The answer to an input of two parts, the tables and the ranks: one JSON object with the verdict of `check` and what each node does
/// with the card, or the first fault as a line of text.
pub fn card_answer(alloc: Global, card: &Card, input: &[u8]) -> Result<Answer, AllocError>
    ensures { IfOk result (CardAnswers card.now input.now) }
{
    tables_answer(alloc, &JsonOfCard { card: *card }, input)
}
