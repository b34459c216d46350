//! A book, and what the tests do with it.
ghost use Rattle.std.specs.Prelude.{◌≡◌, false, IsTrue};
ghost use Rattle.pending_book.specs.Requests.{is_open, IsPending};

use crate::requests::words::{Shape, card, key, link, request};
use card_digits::Key;
use pending_book::{BookFault, PendingBook, Request};
use std::alloc::{AllocError, Global};

/// A line of a test. Requests are named by the numbers of their keys.
#[derive(Clone, Copy)]
pub(crate) enum Step {
    Open(u32, Shape),
    /// A request for which the book has no room.
    Refused(u32, Shape),
    /// So many requests, with numbers from the first on.
    OpenAll(u32, u32, Shape),
    /// Closes a request with a text.
    Close(u32, &'static str),
    Mark(u32),
    /// A tick at which these are due, in this order.
    Tick(&'static [u32]),
    /// The pending requests of a link, and of a card.
    OfLink(u8, &'static [u32]),
    OfCard(&'static str, &'static [u32]),
    /// What is known of a key: whether it has a request, its answer, and whether it was reversed.
    Known(u32, bool, Option<&'static str>, bool),
}

#[derive(Drop)]
struct Desk {
    alloc: Global,
    book: PendingBook,
}

fn are(keys: &[Key], wanted: &[u32]) -> bool {
    if keys.len() != wanted.len() {
        return false;
    }
    for place in 0..keys.len() {
        if keys[place] != key(wanted[place]) {
            return false;
        }
    }
    true
}

fn is_text(found: Option<&[u8]>, wanted: Option<&str>) -> bool {
    match found {
        Some(found) => match wanted {
            Some(wanted) => found == wanted.as_bytes(),
            None => false,
        },
        None => wanted.is_none(),
    }
}

fn is_new(book: &PendingBook, key: &Key) -> bool
    ensures { IsTrue result → is_open book.now key.now ≡ false }
{
    book.of_key(key).is_none()
}

fn is_pending(book: &PendingBook, key: &Key) -> bool
    ensures { IsTrue result → IsPending book.now key.now }
{
    book.of_key(key).is_some() && book.answer_of(key).is_none()
}

fn open(book: &mut PendingBook, key: Key, request: Request) -> Result<(), BookFault> {
    if !is_new(book, &key) || request.ticks == 0 || request.ticks > 4000 {
        return Ok(());
    }
    book.open(key, request)
}

fn close(book: &mut PendingBook, key: &Key, answer: Vec<u8>) -> bool {
    if !is_pending(book, key) {
        return false;
    }
    book.close(key, answer);
    true
}

impl Desk {
    fn new(alloc: Global) -> Result<Desk, AllocError> {
        let book = PendingBook::new(alloc)?;
        Ok(Desk { alloc, book })
    }

    fn opens(&mut self, number: u32, shape: Shape) -> bool {
        let key = key(number);
        let request = request(self.alloc, shape);
        open(&mut self.book, key, request).is_ok() && self.book.of_key(&key).is_some()
    }

    fn is_refused(&mut self, number: u32, shape: Shape) -> bool {
        let key = key(number);
        let request = request(self.alloc, shape);
        let fault = open(&mut self.book, key, request).err();
        fault == Some(BookFault::Full) && self.book.of_key(&key).is_none()
    }

    fn opens_all(&mut self, first: u32, count: u32, shape: Shape) -> bool {
        for i in 0..count {
            if !self.opens(first.wrapping_add(i), shape) {
                return false;
            }
        }
        true
    }

    fn closes(&mut self, number: u32, text: &str) -> Result<bool, AllocError> {
        let answer = text.as_bytes().to_vec(self.alloc)?;
        Ok(close(&mut self.book, &key(number), answer))
    }

    fn marks(&mut self, number: u32) -> bool {
        self.book.mark_reversed(&key(number)).is_ok()
    }

    /// Whether the next tick has these, and looks at no more than these and one.
    fn ticks(&mut self, wanted: &[u32]) -> Result<bool, AllocError> {
        let due = self.book.due()?;
        let same = are(due.as_slice(), wanted);
        self.book.tick();
        Ok(same && self.book.visits() <= (wanted.len() as u64).saturating_add(1))
    }

    fn is_of_link(&self, place: u8, wanted: &[u32]) -> Result<bool, AllocError> {
        let keys = self.book.of_link(link(place))?;
        Ok(are(keys.as_slice(), wanted))
    }

    fn is_of_card(&self, text: &str, wanted: &[u32]) -> Result<bool, AllocError> {
        let Some(card) = card(text) else {
            return Ok(false);
        };
        let keys = self.book.of_card(&card)?;
        Ok(are(keys.as_slice(), wanted))
    }

    fn is_known(&self, number: u32, open: bool, answer: Option<&str>, reversed: bool) -> bool {
        let key = key(number);
        self.book.of_key(&key).is_some() == open
            && is_text(self.book.answer_of(&key), answer)
            && self.book.is_reversed(&key) == reversed
    }

    fn does(&mut self, step: Step) -> Result<bool, AllocError> {
        match step {
            Step::Open(number, shape) => Ok(self.opens(number, shape)),
            Step::Refused(number, shape) => Ok(self.is_refused(number, shape)),
            Step::OpenAll(first, count, shape) => Ok(self.opens_all(first, count, shape)),
            Step::Close(number, text) => self.closes(number, text),
            Step::Mark(number) => Ok(self.marks(number)),
            Step::Tick(wanted) => self.ticks(wanted),
            Step::OfLink(place, wanted) => self.is_of_link(place, wanted),
            Step::OfCard(text, wanted) => self.is_of_card(text, wanted),
            Step::Known(number, open, answer, reversed) => {
                Ok(self.is_known(number, open, answer, reversed))
            }
        }
    }
}

fn first_wrong_in(desk: &mut Desk, steps: &[Step]) -> Result<Option<usize>, AllocError> {
    for place in 0..steps.len() {
        if !desk.does(steps[place])? {
            return Ok(Some(place));
        }
    }
    Ok(None)
}

/// The first step that goes otherwise.
pub(crate) fn first_wrong(alloc: Global, steps: &[Step]) -> Result<Option<usize>, AllocError> {
    let mut desk = Desk::new(alloc)?;
    first_wrong_in(&mut desk, steps)
}
