//! From the bytes of an input to those of an answer.
ghost use Rattle.std.specs.Prelude.{OnErr, IfOk};
ghost use Rattle.card_digits.specs.Stream.{CountsFailure};
ghost use Rattle.bundle_text.specs.Answers.{WroteFront};
ghost use Rattle.bundle_input.specs.Input.{IsOutput, WroteWithCode};
ghost use Rattle.card_json.specs.Answers.{CardAnswers};

use crate::answer::{JsonOfCard, card_answer};
use answer_input::{Question, run_answer};
use bundle_input::BundleFault;
use bundle_text::Answer;
use card_digits::{Card, Sink, Source};
use std::alloc::{AllocError, Global};

impl Question for JsonOfCard {
    ghost is_answer = { λ asked. CardAnswers asked.card };

    fn answer(&self, alloc: Global, input: &[u8]) -> Result<Answer, AllocError> {
        card_answer(alloc, &self.card, input)
    }
}

/// Reads all there is, writes the verdict on it and what each node does with the card, as one JSON object, and nothing else, and
/// answers the exit status.
pub fn run_card_json<R: Source, W: Sink>(
    alloc: Global,
    card: &Card,
    reader: &mut R,
    writer: &mut W,
) -> Result<u8, BundleFault>
    ensures ok { IfOk result (WroteWithCode (IsOutput R.Source reader.old reader.new (CardAnswers card.now)) (W.written writer.old) (W.written writer.new)) }
    ensures err { OnErr result (WroteFront (IsOutput R.Source reader.old reader.new (CardAnswers card.now)) (W.written writer.old) (W.written writer.new)) }
    ensures counts { CountsFailure (W.failures writer.old) (W.failures writer.new) result }
{
    run_answer(alloc, &JsonOfCard { card: *card }, reader, writer)
}
