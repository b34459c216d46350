//! What hosts and sessions wait for in a trace.
ghost use Rattle.std.specs.Prelude.{◌≡◌, ◌+◌, ◌<◌, ◌^◌, ◌∷◌, [], None, IfSome, drop, filter_map};
ghost use Rattle.plan_state.specs.Cursors.{skipped};
ghost use Rattle.plan_state.specs.Found.{IsFirst, answers_from, ask_of, asks_from, behind};
ghost use Rattle.plan_state.specs.Wanted.{answer_to};

use crate::wanted::Wanted;
use kept_messages::Way;
use shared_bytes::SharedBytes;
use std::alloc::Global;
use switch_node::{Entry, Output};

/// Where somebody who reads a trace has come: to an output of an entry, or to an entry that has not been made.
#[derive(Clone, Copy)]
pub struct Cursor {
    pub entry: usize,
    output: usize,
}

impl Cursor {
    /// Before the first output of an entry.
    pub fn at(entry: usize) -> Cursor
        ensures { result ≡ record { entry = entry; output = 0 } }
    {
        Cursor { entry, output: 0 }
    }

    /// Moves before the first output of a later entry.
    pub fn skip_to(&mut self, entry: usize)
        ensures { self.new ≡ skipped entry self.old }
    {
        if entry > self.entry {
            *self = Cursor::at(entry);
        }
    }

    /// Behind an output of an entry that has so many.
    fn behind(entry: usize, output: usize, count: usize) -> Cursor
        requires entry { entry < 2 ^ 63 }
        requires output { output < count }
        ensures { result ≡ behind entry output count }
    {
        if output + 1 < count {
            Cursor {
                entry,
                output: output + 1,
            }
        } else {
            Cursor::at(entry + 1)
        }
    }
}

/// A request to the host.
#[derive(Drop)]
pub struct Ask {
    pub number: u64,
    pub bytes: SharedBytes,
}

/// A request to the host among outputs, and its place.
#[derive(Clone, Copy)]
struct AskAt<'o> {
    place: usize,
    number: u64,
    bytes: &'o SharedBytes,
}

/// The first request to the host among outputs from a place on.
fn asked(outputs: &[Output], from: usize) -> Option<AskAt<'_>>
    ensures found { IfSome result (λ a. IsFirst ask_of outputs.now from a.place (a.number, a.bytes.now)) }
    ensures none { result ≡ None → filter_map ask_of (drop from outputs.now) ≡ [] }
{
    for place in from..outputs.len() {
        let output = &outputs[place];
        if let Way::Ask(number) = output.way() {
            return Some(AskAt {
                place,
                number,
                bytes: output.shared_bytes(),
            });
        }
    }
    None
}

/// An answer among outputs, and its place.
#[derive(Clone, Copy)]
struct AnswerAt<'o> {
    place: usize,
    bytes: &'o [u8],
}

/// The first answer among outputs from a place on that may be the wanted one.
fn answered<'o>(outputs: &'o [Output], from: usize, wanted: &Wanted) -> Option<AnswerAt<'o>>
    ensures found { IfSome result (λ a. IsFirst (answer_to wanted.now) outputs.now from a.place a.bytes.now) }
    ensures none { result ≡ None → filter_map (answer_to wanted.now) (drop from outputs.now) ≡ [] }
{
    for place in from..outputs.len() {
        let output = &outputs[place];
        if let Way::Answer = output.way() {
            if wanted.may_be(output.bytes()) {
                return Some(AnswerAt {
                    place,
                    bytes: output.bytes(),
                });
            }
        }
    }
    None
}

/// The next request to the host in a trace. None is passed over: the cursor moves behind the first, and where that one's bytes have too many
/// owners, it stays before it.
pub fn next_ask(trace: &[Entry], cursor: &mut Cursor) -> Option<Ask>
    ensures found { IfSome result (λ a. asks_from trace.now cursor.old ≡ (a.number, a.bytes) ∷ asks_from trace.now cursor.new) }
    ensures none { result ≡ None → asks_from trace.now cursor.new ≡ asks_from trace.now cursor.old }
{
    for k in cursor.entry..trace.len() {
        if let Some(ask) = asked(trace[k].outputs().as_slice(), cursor.output) {
            let Ok(bytes) = ask.bytes.share() else {
                return None;
            };
            *cursor = Cursor::behind(k, ask.place, trace[k].outputs().as_slice().len());
            return Some(Ask {
                number: ask.number,
                bytes,
            });
        }
        *cursor = Cursor::at(k + 1);
    }
    None
}

/// The next answer in a trace that may be the wanted one. None is passed over: the cursor moves behind the first, and where there is no memory
/// for a copy, it stays before it. One entry may answer several requests.
pub fn next_answer(
    alloc: Global,
    trace: &[Entry],
    cursor: &mut Cursor,
    wanted: &Wanted,
) -> Option<Vec<u8>>
    ensures found { IfSome result (λ v. answers_from wanted.now trace.now cursor.old ≡ v.items ∷ answers_from wanted.now trace.now cursor.new) }
    ensures none { result ≡ None → answers_from wanted.now trace.now cursor.new ≡ answers_from wanted.now trace.now cursor.old }
{
    for k in cursor.entry..trace.len() {
        if let Some(answer) = answered(trace[k].outputs().as_slice(), cursor.output, wanted) {
            let Ok(copy) = Vec::from_slice(alloc, answer.bytes) else {
                return None;
            };
            *cursor = Cursor::behind(k, answer.place, trace[k].outputs().as_slice().len());
            return Some(copy);
        }
        *cursor = Cursor::at(k + 1);
    }
    None
}
