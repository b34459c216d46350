//! A book of limits, and what the tests do with it. Nothing is promised of these functions.
use card_digits::{Amount, Card, DateLabel, DigitFault, Key};
use standin_book::{LendFault, LimitBook, Over};
use std::alloc::Global;

/// A card on a settlement date.
#[derive(Clone, Copy)]
pub(crate) enum Day {
    Today,
    /// Another card on the same date.
    OtherCard,
    /// The same card on the next date.
    Tomorrow,
}

/// A line of a test. Keys and lenders are named by numbers. An answer of `None` says that the call does what it is for.
#[derive(Clone, Copy)]
pub(crate) enum Step {
    /// Takes an amount of a key that took nothing yet, under limits of 1000 a day and 600 at once.
    Take(u8, Day, u32, Option<Over>),
    /// The same of today, under a limit of so much a day.
    TakeOf(u32, u8, u32, Option<Over>),
    /// Undoes what a key took, where it counts whole.
    Untake(u8, bool),
    GiveBack(u8, bool),
    /// Gives back all but an amount.
    GiveBackTo(u8, u32, bool),
    /// Lends under a limit of 1000 a day.
    Lend(Day, u32, Option<LendFault>),
    /// Borrows an amount of today by a grant of a lender, and says whether it is a new one.
    Borrow(u8, u64, u32, bool),
    Used(Day, u128),
    IsTaken(u8, bool),
    CountsWhole(u8),
    /// How many approvals, loans and grants there are.
    Takes(usize),
    Loans(usize),
    Grants(usize),
}

/// A card and a date as they are passed to the book.
#[derive(Drop)]
pub(crate) struct CardDate {
    pub(crate) card: Card,
    pub(crate) date: DateLabel,
}

/// The key of a number below 10.
pub(crate) fn key(number: u8) -> Key {
    Key {
        acquirer: *b"00000001001",
        trace: [b'0', b'0', b'0', b'0', b'0', b'0' + number % 10],
        time: *b"0314091530",
    }
}

/// The lender of a number below 10.
fn lender(number: u8) -> [u8; 11] {
    let mut id = *b"00000001000";
    id[10] = b'0' + number % 10;
    id
}

fn read_day(card: &[u8], date: &[u8]) -> Result<CardDate, DigitFault> {
    let card = Card::read(card)?;
    let date = DateLabel::read(date)?;
    Ok(CardDate { card, date })
}

pub(crate) fn card_date(day: Day) -> Result<CardDate, DigitFault> {
    match day {
        Day::Today => read_day(b"4111111111111111", b"0314"),
        Day::OtherCard => read_day(b"4222222222222222", b"0314"),
        Day::Tomorrow => read_day(b"4111111111111111", b"0315"),
    }
}

fn amount(value: u32) -> Amount {
    Amount::new(value as u64)
}

/// Takes an amount. A key that took already counts as over.
pub(crate) fn take(
    book: &mut LimitBook,
    key: Key,
    day: &CardDate,
    amount: Amount,
    limits: (Amount, Amount),
) -> Result<(), Over> {
    if book.is_taken(key) {
        return Err(Over::Memory);
    }
    book.try_take(key, day.card, day.date, amount, limits.0, limits.1)
}

fn takes(
    book: &mut LimitBook,
    number: u8,
    day: Day,
    value: u32,
    limit: u32,
    wanted: Option<Over>,
) -> bool {
    let Ok(day) = card_date(day) else {
        return false;
    };
    let limits = (amount(limit), amount(600));
    take(book, key(number), &day, amount(value), limits).err() == wanted
}

fn untake(book: &mut LimitBook, key: Key) -> bool {
    let whole = book.counts_whole(key);
    if whole {
        book.untake(key);
    }
    whole
}

fn lends(book: &mut LimitBook, day: Day, value: u32, wanted: Option<LendFault>) -> bool {
    match card_date(day) {
        Ok(day) => book
            .lend(&day.card, &day.date, amount(value), amount(1000))
            .err()
            == wanted,
        Err(_) => false,
    }
}

fn borrows(book: &mut LimitBook, from: u8, number: u64, value: u32, wanted: bool) -> bool {
    let Ok(day) = card_date(Day::Today) else {
        return false;
    };
    match book.borrow(lender(from), number, &day.card, &day.date, amount(value)) {
        Ok(new) => new == wanted,
        Err(_) => false,
    }
}

fn is_used(book: &LimitBook, day: Day, wanted: u128) -> bool {
    match card_date(day) {
        Ok(day) => book.used(&day.card, &day.date) == wanted,
        Err(_) => false,
    }
}

/// Whether a step goes as it says.
fn does(book: &mut LimitBook, step: Step) -> bool {
    match step {
        Step::Take(number, day, value, wanted) => takes(book, number, day, value, 1000, wanted),
        Step::TakeOf(limit, number, value, wanted) => {
            takes(book, number, Day::Today, value, limit, wanted)
        }
        Step::Untake(number, wanted) => untake(book, key(number)) == wanted,
        Step::GiveBack(number, wanted) => book.give_back(key(number)) == wanted,
        Step::GiveBackTo(number, value, wanted) => {
            book.give_back_to(key(number), amount(value)) == wanted
        }
        Step::Lend(day, value, wanted) => lends(book, day, value, wanted),
        Step::Borrow(from, number, value, wanted) => borrows(book, from, number, value, wanted),
        Step::Used(day, wanted) => is_used(book, day, wanted),
        Step::IsTaken(number, wanted) => book.is_taken(key(number)) == wanted,
        Step::CountsWhole(number) => book.counts_whole(key(number)),
        Step::Takes(count) => book.takes().len() == count,
        Step::Loans(count) => book.loans().len() == count,
        Step::Grants(count) => book.borrowed().len() == count,
    }
}

fn first_wrong_in(book: &mut LimitBook, steps: &[Step]) -> Option<usize> {
    for place in 0..steps.len() {
        if !does(book, steps[place]) {
            return Some(place);
        }
    }
    None
}

/// The first step that goes otherwise in a new book.
pub(crate) fn first_wrong(alloc: Global, steps: &[Step]) -> Option<usize> {
    let mut book = LimitBook::new(alloc);
    first_wrong_in(&mut book, steps)
}
