//! What is asked of an input, and the way from the input to the answer that is written.
ghost use Rattle.std.specs.Prelude.{◌≡◌, Err, OnErr, IfOk};
ghost use Rattle.card_digits.specs.Stream.{CountsFailure};
ghost use Rattle.bundle_text.specs.Answers.{Wrote, WroteFront};
ghost use Rattle.bundle_input.specs.Input.{AnswersOrMemory, IsOutput, WroteWithCode};

use bundle_input::{BundleFault, InputFault, read_all, write_cause};
use bundle_text::{Answer, Status};
use card_digits::{Sink, Source, write_all};
use std::alloc::{AllocError, Global};

/// What is asked of the bytes of an input.
pub trait Question {
    ghost use Rattle.std.specs.Prelude.{ℕ, List, IfOk};
    ghost use Rattle.bundle_text.specs.Answers.{Said};

    /// What an answer to an input is.
    ghost is_answer: { Self → List ℕ → Said → Type 0 };

    /// The answer to an input, or that memory was refused.
    fn answer(&self, alloc: Global, input: &[u8]) -> Result<Answer, AllocError>
        ensures { IfOk result (λ a. is_answer self.now input.now a) };
}

/// Writes the answer to an input, or that there is no memory.
fn print_input<Q: Question, W: Sink>(
    alloc: Global,
    question: &Q,
    input: &[u8],
    writer: &mut W,
) -> Result<Status, BundleFault>
    ensures ok { IfOk result (Wrote (AnswersOrMemory (Q.is_answer question.now) input.now) (W.written writer.old) (W.written writer.new)) }
    ensures err { OnErr result (WroteFront (AnswersOrMemory (Q.is_answer question.now) input.now) (W.written writer.old) (W.written writer.new)) }
    ensures counts { CountsFailure (W.failures writer.old) (W.failures writer.new) result }
{
    let Ok(answer) = question.answer(alloc, input) else {
        return write_cause(writer, InputFault::Memory);
    };
    match write_all(writer, answer.text()) {
        Ok(()) => Ok(answer.status()),
        Err(_) => Err(BundleFault::Write),
    }
}

/// Writes the answer to all that a reader gives.
fn print_output<Q: Question, R: Source, W: Sink>(
    alloc: Global,
    question: &Q,
    reader: &mut R,
    writer: &mut W,
) -> Result<Status, BundleFault>
    ensures ok { IfOk result (Wrote (IsOutput R.Source reader.old reader.new (Q.is_answer question.now)) (W.written writer.old) (W.written writer.new)) }
    ensures err { OnErr result (WroteFront (IsOutput R.Source reader.old reader.new (Q.is_answer question.now)) (W.written writer.old) (W.written writer.new)) }
    ensures counts { CountsFailure (W.failures writer.old) (W.failures writer.new) result }
{
    match read_all(alloc, reader) {
        Ok(input) => print_input(alloc, question, &input, writer),
        Err(cause) => write_cause(writer, cause),
    }
}

/// Reads all there is, writes the answer to it, and nothing else, and gives the exit status. Where there is no input, or no memory
/// for an answer, it writes the line of that cause.
pub fn run_answer<Q: Question, R: Source, W: Sink>(
    alloc: Global,
    question: &Q,
    reader: &mut R,
    writer: &mut W,
) -> Result<u8, BundleFault>
    ensures ok { IfOk result (WroteWithCode (IsOutput R.Source reader.old reader.new (Q.is_answer question.now)) (W.written writer.old) (W.written writer.new)) }
    ensures err { OnErr result (WroteFront (IsOutput R.Source reader.old reader.new (Q.is_answer question.now)) (W.written writer.old) (W.written writer.new)) }
    ensures counts { CountsFailure (W.failures writer.old) (W.failures writer.new) result }
{
    match print_output(alloc, question, reader, writer) {
        Ok(status) => Ok(status.code()),
        Err(fault) => Err(fault),
    }
}
