//! From the bytes of an input to those of an answer.
ghost use Rattle.std.specs.Prelude.{OnErr, IfOk};
ghost use Rattle.card_digits.specs.Stream.{CountsFailure};
ghost use Rattle.bundle_text.specs.Answers.{WroteFront};
ghost use Rattle.bundle_input.specs.Input.{IsOutput, WroteWithCode};
ghost use Rattle.network_picture.specs.Answers.{PictureAnswers};

use crate::answer::picture_answer;
use crate::asked::PictureJob;
use answer_input::{Question, run_answer};
use bundle_input::BundleFault;
use bundle_text::Answer;
use card_digits::{Sink, Source};
use std::alloc::{AllocError, Global};

impl Question for PictureJob {
    ghost is_answer = { PictureAnswers };

    fn answer(&self, alloc: Global, input: &[u8]) -> Result<Answer, AllocError> {
        picture_answer(alloc, self, input)
    }
}

/// Reads all there is, writes the picture that is asked for, or the first fault, and nothing else, and answers the exit status.
pub fn run_picture<R: Source, W: Sink>(
    alloc: Global,
    job: &PictureJob,
    reader: &mut R,
    writer: &mut W,
) -> Result<u8, BundleFault>
    ensures ok { IfOk result (WroteWithCode (IsOutput R.Source reader.old reader.new (PictureAnswers job.now)) (W.written writer.old) (W.written writer.new)) }
    ensures err { OnErr result (WroteFront (IsOutput R.Source reader.old reader.new (PictureAnswers job.now)) (W.written writer.old) (W.written writer.new)) }
    ensures counts { CountsFailure (W.failures writer.old) (W.failures writer.new) result }
{
    run_answer(alloc, job, reader, writer)
}
