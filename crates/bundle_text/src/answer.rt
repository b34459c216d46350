//! What the program answers.
ghost use Rattle.std.specs.Prelude.{◌≡◌, Err, IfOk};
ghost use Rattle.bundle_text.specs.Answers.{Wrote, WroteFront};
ghost use Rattle.message_text.specs.Printed.{CountsPrinted};

use card_digits::{Sink, write_all};
use message_text::PrintFault;
use std::marker::Model;

/// The exit status: 0 where the job is done, 1 where the tables are refused, 2 for any fault.
#[derive(Clone, Copy, Debug, PartialEq, Eq)]
pub enum Status {
    Done,
    Refused,
    Fault,
}

impl Status {
    ghost use Rattle.bundle_text.specs.Answers.{status_code};

    /// The number that a process ends with.
    pub fn code(self) -> u8
        ensures { result ≡ status_code self }
    {
        match self {
            Status::Done => 0,
            Status::Refused => 1,
            Status::Fault => 2,
        }
    }
}

/// A printed text, and the status that goes with it.
#[derive(Debug, Drop)]
pub struct Answer {
    text: Vec<u8>,
    status: Status,
}

impl Model for Answer {
    ghost use Rattle.bundle_text.specs.Answers.{Said};

    ghost Value = { Said };

    ghost view = { λ a. record { text = a.text.items; status = a.status } };
}

impl Answer {
    /// A text to print, and the status with which the program ends.
    pub fn new(text: Vec<u8>, status: Status) -> Answer
        ensures { result ≡ record { text = text.items; status = status } }
    {
        Answer { text, status }
    }

    /// The bytes to print.
    pub fn text(&self) -> &[u8]
        ensures { result.now ≡ self.now.text }
    {
        &self.text
    }

    /// The status with which the program ends.
    pub fn status(&self) -> Status
        ensures { result ≡ self.now.status }
    {
        self.status
    }
}

/// Writes an answer that was made.
pub fn write_answer<W: Sink>(writer: &mut W, answer: &Answer) -> Result<Status, PrintFault>
    ensures ok { IfOk result (Wrote (λ said. said ≡ answer.now) (W.written writer.old) (W.written writer.new)) }
    ensures write { result ≡ Err PrintFault.Write → WroteFront (λ said. said ≡ answer.now) (W.written writer.old) (W.written writer.new) }
    ensures counts { CountsPrinted (W.failures writer.old) (W.failures writer.new) result }
    ensures memory { result ≡ Err PrintFault.Memory → W.written writer.new ≡ W.written writer.old }
{
    match write_all(writer, answer.text()) {
        Ok(()) => Ok(answer.status()),
        Err(_) => Err(PrintFault::Write),
    }
}
