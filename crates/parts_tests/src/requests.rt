//! The book of requests that wait: the orders in which it lists them, what it knows of keys, and a book with as many requests as it may have.
mod desk;
pub(crate) mod words;

use desk::{Step, first_wrong};
use std::test::*;
use words::{SAME_HASH, Shape};

const FIRST: &str = "4111111111111111";

const SECOND: &str = "5555555555554444";

/// Those due at one tick come in the order of opening, whatever slots they have and whenever they were opened.
const DUE_IN_OPENING_ORDER: (&str, &[Step]) = (
    "due in opening order",
    &[
        Step::Open(1, Shape::Plain(3)),
        Step::Open(2, Shape::Plain(3)),
        Step::Close(1, "00"),
        Step::Tick(&[]),
        Step::Open(3, Shape::Plain(2)),
        Step::Tick(&[]),
        Step::Open(4, Shape::Plain(1)),
        Step::Open(5, Shape::Plain(2)),
        Step::Tick(&[2, 3, 4]),
        Step::Tick(&[5]),
        Step::Tick(&[]),
    ],
);

/// What is due stays pending, and may be closed later.
const DUE_AND_STILL_PENDING: (&str, &[Step]) = (
    "due and still pending",
    &[
        Step::Open(1, Shape::DueAtOnce(FIRST, 3)),
        Step::Open(2, Shape::Plain(4000)),
        Step::Tick(&[1]),
        Step::OfLink(3, &[1]),
        Step::Tick(&[]),
        Step::Close(1, "91"),
        Step::OfLink(3, &[]),
        Step::Known(1, true, Some("91"), false),
    ],
);

/// A request that is closed leaves the lists of its link and of its card, and no other.
const CLOSED_LEAVES_ITS_LISTS: (&str, &[Step]) = (
    "closed leaves its lists",
    &[
        Step::Open(1, Shape::OfCard(FIRST, 0)),
        Step::Open(2, Shape::OfCard(SECOND, 1)),
        Step::Open(3, Shape::OfCard(FIRST, 0)),
        Step::OfLink(0, &[1, 3]),
        Step::OfCard(FIRST, &[1, 3]),
        Step::Close(1, "91"),
        Step::OfLink(0, &[3]),
        Step::OfCard(FIRST, &[3]),
        Step::Close(3, "91"),
        Step::OfLink(0, &[]),
        Step::OfCard(FIRST, &[]),
        Step::OfLink(1, &[2]),
        Step::OfCard(SECOND, &[2]),
        Step::Known(2, true, None, false),
    ],
);

/// A mark needs no request, stays, and lets the request of its key come later.
const MARKED_KEYS: (&str, &[Step]) = (
    "marked keys",
    &[
        Step::Known(1, false, None, false),
        Step::Mark(1),
        Step::Mark(1),
        Step::Known(1, false, None, true),
        Step::Known(2, false, None, false),
        Step::Open(1, Shape::Plain(1)),
        Step::Known(1, true, None, true),
        Step::Close(1, "68"),
        Step::Known(1, true, Some("68"), true),
    ],
);

/// One more is refused and leaves nothing behind, a tick looks at none of them, and a place that is given up is free again.
const THE_LAST_PLACE: (&str, &[Step]) = (
    "the last place",
    &[
        Step::OpenAll(0, 65_536, Shape::Plain(4000)),
        Step::Refused(65_536, Shape::Plain(1)),
        Step::Tick(&[]),
        Step::Close(7, "00"),
        Step::Open(65_536, Shape::Plain(1)),
        Step::Refused(65_537, Shape::Plain(1)),
        Step::Tick(&[65_536]),
    ],
);

const ONE: u32 = SAME_HASH[0];

const OTHER: u32 = SAME_HASH[1];

/// Each of two keys that have one hash is found by itself.
const TOLD_APART: (&str, &[Step]) = (
    "told apart",
    &[
        Step::Open(ONE, Shape::Plain(3)),
        Step::Mark(OTHER),
        Step::Known(ONE, true, None, false),
        Step::Known(OTHER, false, None, true),
        Step::Open(OTHER, Shape::Plain(3)),
        Step::Close(OTHER, "00"),
        Step::Known(ONE, true, None, false),
        Step::Known(OTHER, true, Some("00"), true),
        Step::Tick(&[]),
        Step::Tick(&[]),
        Step::Tick(&[ONE]),
    ],
);

const LISTS: [(&str, &[Step]); 6] = [
    DUE_IN_OPENING_ORDER,
    DUE_AND_STILL_PENDING,
    CLOSED_LEAVES_ITS_LISTS,
    MARKED_KEYS,
    THE_LAST_PLACE,
    TOLD_APART,
];

#[test]
fn each_list_of_requests(rt: HostRuntime) -> Result<(), Fail> {
    for (name, steps) in LISTS {
        let wrong = first_wrong(rt.alloc(), steps)?;
        assert!(rt; wrong.is_none(), "{name}: step {wrong:?}");
    }
    Ok(())
}
