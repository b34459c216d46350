//! Finding what a node put out in its trace.
ghost use Rattle.std.specs.Prelude.{◌≡◌, IsTrue, true};
ghost use Rattle.std.specs.List.{list_any};
ghost use Rattle.net_threads.specs.Found.{is_put, is_answer, entry_puts, entry_answers};

use crate::byte_hash::hash_of;
use card_digits::LinkNo;
use kept_messages::Way;
use std::alloc::{AllocError, Global};
use switch_node::{Entry, Output};

/// Where an output stands in a trace.
#[derive(Clone, Copy)]
struct Place {
    entry: usize,
    output: usize,
}

/// Where the puts of a trace on each link stand, in order: a put's serial counts from 1.
#[derive(Drop)]
pub(crate) struct PutPlaces {
    links: Vec<Vec<Place>>,
}

fn is_put(output: &Output, link: LinkNo, serial: u64, bytes: &[u8]) -> bool
    ensures { result ≡ is_put link serial bytes.now output.now }
{
    match output.way() {
        Way::Put(on, number) => on == link && number == serial && output.bytes() == bytes,
        _ => false,
    }
}

fn is_answer(output: &Output, bytes: &[u8]) -> bool
    ensures { result ≡ is_answer bytes.now output.now }
{
    match output.way() {
        Way::Answer => output.bytes() == bytes,
        _ => false,
    }
}

fn entry_puts(entry: &Entry, link: LinkNo, serial: u64, bytes: &[u8]) -> bool
    ensures { result ≡ entry_puts link serial bytes.now entry.now }
{
    entry
        .outputs()
        .as_slice()
        .iter()
        .any(|output| is_put(output, link, serial, bytes))
}

fn entry_answers(entry: &Entry, bytes: &[u8]) -> bool
    ensures { result ≡ entry_answers bytes.now entry.now }
{
    entry
        .outputs()
        .as_slice()
        .iter()
        .any(|output| is_answer(output, bytes))
}

fn is_put_at(trace: &[Entry], at: Place, link: LinkNo, serial: u64, bytes: &[u8]) -> bool
    ensures { IsTrue result → list_any (entry_puts link serial bytes.now) trace.now ≡ true }
{
    match trace.get(at.entry) {
        Some(entry) => match entry.outputs().as_slice().get(at.output) {
            Some(output) => is_put(output, link, serial, bytes),
            None => false,
        },
        None => false,
    }
}

impl PutPlaces {
    /// Looks at each output of the trace once. There are so many links.
    pub(crate) fn of(
        alloc: Global,
        trace: &[Entry],
        count: usize,
    ) -> Result<PutPlaces, AllocError> {
        let mut links = Vec::new(alloc);
        for _ in 0..count {
            links.push(Vec::new(alloc))?;
        }
        let mut places = PutPlaces { links };
        for (k, entry) in trace.iter().enumerate() {
            places.add(k, entry)?;
        }
        Ok(places)
    }

    fn add(&mut self, k: usize, entry: &Entry) -> Result<(), AllocError> {
        for (j, output) in entry.outputs().as_slice().iter().enumerate() {
            if let Way::Put(link, _) = output.way() {
                if let Some(places) = self.links.get_mut(link.place()) {
                    places.push(Place {
                        entry: k,
                        output: j,
                    })?;
                }
            }
        }
        Ok(())
    }

    fn place(&self, link: LinkNo, serial: u64) -> Option<Place> {
        let places = self.links.get(link.place())?;
        let before = usize::try_from(serial.checked_sub(1)?).ok()?;
        places.get(before).copied()
    }
}

/// Whether the trace put these bytes on the link with this serial. Looks where that put should stand, and then at all of it.
pub(crate) fn has_put(
    places: Option<&PutPlaces>,
    trace: &[Entry],
    link: LinkNo,
    serial: u64,
    bytes: &[u8],
) -> bool
    ensures { result ≡ list_any (entry_puts link serial bytes.now) trace.now }
{
    if let Some(places) = places {
        if let Some(at) = places.place(link, serial) {
            if is_put_at(trace, at, link, serial, bytes) {
                return true;
            }
        }
    }
    trace
        .iter()
        .any(|entry| entry_puts(entry, link, serial, bytes))
}

/// How many slots from that of its hash on an answer may stand in.
const PROBES: usize = 16;

/// An answer of a trace: the hash of its bytes, and the place of its entry.
#[derive(Clone, Copy)]
struct Hashed {
    hash: u64,
    entry: usize,
}

/// Where the answers of a trace stand, by the hashes of their bytes. Twice as many slots as answers; one that finds none free near its
/// own is left out.
#[derive(Drop)]
pub(crate) struct AnswerPlaces {
    slots: Vec<Option<Hashed>>,
}

fn count_answers(trace: &[Entry]) -> usize {
    let mut count: usize = 0;
    for entry in trace {
        for output in entry.outputs().as_slice() {
            if let Way::Answer = output.way() {
                count = count.saturating_add(1);
            }
        }
    }
    count
}

fn is_answered_at(trace: &[Entry], k: usize, bytes: &[u8]) -> bool
    ensures { IsTrue result → list_any (entry_answers bytes.now) trace.now ≡ true }
{
    match trace.get(k) {
        Some(entry) => entry_answers(entry, bytes),
        None => false,
    }
}

impl AnswerPlaces {
    pub(crate) fn of(alloc: Global, trace: &[Entry]) -> Result<AnswerPlaces, AllocError> {
        let count = count_answers(trace).saturating_mul(2);
        let mut places = AnswerPlaces {
            slots: vec![in alloc; None; count]?,
        };
        for (k, entry) in trace.iter().enumerate() {
            for output in entry.outputs().as_slice() {
                if let Way::Answer = output.way() {
                    places.add(hash_of(output.bytes()), k);
                }
            }
        }
        Ok(places)
    }

    /// The slot of a hash, or one behind it. None where there are no slots.
    fn slot(&self, hash: u64, behind: usize) -> Option<usize> {
        let count = self.slots.len() as u64;
        if count == 0 {
            return None;
        }
        Some((hash.wrapping_add(behind as u64) % count) as usize)
    }

    fn add(&mut self, hash: u64, entry: usize) {
        for behind in 0..PROBES {
            let Some(k) = self.slot(hash, behind) else {
                return;
            };
            let Some(slot) = self.slots.get_mut(k) else {
                return;
            };
            match slot {
                None => {
                    *slot = Some(Hashed { hash, entry });
                    return;
                }
                Some(other) if other.hash == hash => return,
                Some(_) => {}
            }
        }
    }

    /// The place of the entry that has an answer, by its hash. Where there are no slots nothing is hashed.
    fn place(&self, bytes: &[u8]) -> Option<usize> {
        if self.slots.is_empty() {
            return None;
        }
        let hash = hash_of(bytes);
        for behind in 0..PROBES {
            match self.slots.get(self.slot(hash, behind)?)? {
                None => return None,
                Some(answer) if answer.hash == hash => return Some(answer.entry),
                Some(_) => {}
            }
        }
        None
    }
}

fn has_answer(trace: &[Entry], bytes: &[u8]) -> bool
    ensures { result ≡ list_any (entry_answers bytes.now) trace.now }
{
    trace.iter().any(|entry| entry_answers(entry, bytes))
}

/// Whether the trace has this answer. Looks where it should stand, then at the entries from a place on, which moves on to that of the
/// answer, and then at all of it.
pub(crate) fn has_answer_from(
    places: Option<&AnswerPlaces>,
    trace: &[Entry],
    from: &mut usize,
    bytes: &[u8],
) -> bool
    ensures { result ≡ list_any (entry_answers bytes.now) trace.now }
{
    if let Some(places) = places {
        if let Some(k) = places.place(bytes) {
            if is_answered_at(trace, k, bytes) {
                *from = k.max(*from);
                return true;
            }
        }
    }
    for k in *from..trace.len() {
        if entry_answers(&trace[k], bytes) {
            *from = k;
            return true;
        }
    }
    has_answer(trace, bytes)
}
