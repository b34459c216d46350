//! From the bytes of an input to those of an answer.
ghost use Rattle.std.specs.Prelude.{OnErr, IfOk};
ghost use Rattle.card_digits.specs.Stream.{CountsFailure};
ghost use Rattle.bundle_text.specs.Answers.{WroteFront};
ghost use Rattle.bundle_input.specs.Input.{IsOutput, WroteWithCode};
ghost use Rattle.trace_view.specs.Answers.{IsTraceAnswer};

use crate::answer::trace_answer;
use answer_input::{Question, run_answer};
use bundle_input::BundleFault;
use bundle_text::Answer;
use card_digits::{Sink, Source};
use std::alloc::{AllocError, Global};

/// The table of a trace is asked for.
#[derive(Clone, Copy)]
struct TraceTable;

impl Question for TraceTable {
    ghost is_answer = { λ _. IsTraceAnswer };

    fn answer(&self, alloc: Global, input: &[u8]) -> Result<Answer, AllocError> {
        trace_answer(alloc, input)
    }
}

/// Reads all there is, writes the table of its trace, and nothing else, and answers the exit status.
pub fn run_trace<R: Source, W: Sink>(
    alloc: Global,
    reader: &mut R,
    writer: &mut W,
) -> Result<u8, BundleFault>
    ensures ok { IfOk result (WroteWithCode (IsOutput R.Source reader.old reader.new IsTraceAnswer) (W.written writer.old) (W.written writer.new)) }
    ensures err { OnErr result (WroteFront (IsOutput R.Source reader.old reader.new IsTraceAnswer) (W.written writer.old) (W.written writer.new)) }
    ensures counts { CountsFailure (W.failures writer.old) (W.failures writer.new) result }
{
    run_answer(alloc, &TraceTable, reader, writer)
}
