//! From the bytes of an input to those of an answer.
ghost use Rattle.std.specs.Prelude.{OnErr, IfOk};
ghost use Rattle.card_digits.specs.Stream.{CountsFailure};
ghost use Rattle.bundle_text.specs.Answers.{WroteFront};
ghost use Rattle.bundle_input.specs.Input.{IsOutput, WroteWithCode};
ghost use Rattle.card_view.specs.Answers.{ViewAnswers};

use crate::answer::view_answer;
use crate::asked::Asked;
use answer_input::{Question, run_answer};
use bundle_input::BundleFault;
use bundle_text::Answer;
use card_digits::{Sink, Source};
use std::alloc::{AllocError, Global};

impl Question for Asked {
    ghost is_answer = { ViewAnswers };

    fn answer(&self, alloc: Global, input: &[u8]) -> Result<Answer, AllocError> {
        view_answer(alloc, self, input)
    }
}

/// Reads all there is, writes the verdict on it and what was asked for, and nothing else, and answers the exit status.
pub fn run_view<R: Source, W: Sink>(
    alloc: Global,
    asked: &Asked,
    reader: &mut R,
    writer: &mut W,
) -> Result<u8, BundleFault>
    ensures ok { IfOk result (WroteWithCode (IsOutput R.Source reader.old reader.new (ViewAnswers asked.now)) (W.written writer.old) (W.written writer.new)) }
    ensures err { OnErr result (WroteFront (IsOutput R.Source reader.old reader.new (ViewAnswers asked.now)) (W.written writer.old) (W.written writer.new)) }
    ensures counts { CountsFailure (W.failures writer.old) (W.failures writer.new) result }
{
    run_answer(alloc, asked, reader, writer)
}
