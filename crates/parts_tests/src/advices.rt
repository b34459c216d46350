//! The store of advices and grants: what is due at which tick, what is known, what was put, and a store with as many places taken as it has.
mod desk;
mod words;

use advice_store::{GrantFault, StoreFault};
use desk::{Step, first_wrong};
use std::test::*;
use words::{Name, REVERSALS};

/// Advices and grants come in one stored order, at each third tick after their storing, until they are acknowledged.
const DUE_AGAIN: (&str, &[Step]) = (
    "due again",
    &[
        Step::Store(1, None),
        Step::Lend(1, None),
        Step::Store(2, None),
        Step::Tick(&[]),
        Step::Lend(2, None),
        Step::Store(3, None),
        Step::Tick(&[]),
        Step::Tick(&[Name::Advice(1), Name::Grant(1), Name::Advice(2)]),
        Step::Lend(3, None),
        Step::Tick(&[Name::Grant(2), Name::Advice(3)]),
        Step::Ack(Name::Advice(1)),
        Step::Ack(Name::Grant(2)),
        Step::Tick(&[]),
        Step::Tick(&[Name::Grant(1), Name::Advice(2), Name::Grant(3)]),
        Step::Tick(&[Name::Advice(3)]),
    ],
);

/// An advice is stored once, and known after its acknowledgement.
const KNOWN_FOR_GOOD: (&str, &[Step]) = (
    "known for good",
    &[
        Step::Known(1, false, false),
        Step::Store(1, None),
        Step::Store(1, Some(StoreFault::Known)),
        Step::Note(1, Some(StoreFault::Known)),
        Step::Known(1, true, true),
        Step::Known(REVERSALS + 1, false, false),
        Step::Store(REVERSALS + 1, None),
        Step::Ack(Name::Advice(1)),
        Step::NotHeld(Name::Advice(1)),
        Step::Known(1, true, false),
        Step::Store(1, Some(StoreFault::Known)),
        Step::Known(REVERSALS + 1, true, true),
        Step::Tick(&[]),
        Step::Tick(&[]),
        Step::Tick(&[Name::Advice(REVERSALS + 1)]),
    ],
);

/// A grant that comes again counts once, and is found until it is acknowledged.
const GRANTS: (&str, &[Step]) = (
    "grants",
    &[
        Step::Lent(1, false),
        Step::Lend(1, None),
        Step::Lend(1, None),
        Step::Lent(1, true),
        Step::Lent(2, false),
        Step::Known(1, false, false),
        Step::Tick(&[]),
        Step::Tick(&[]),
        Step::Tick(&[Name::Grant(1)]),
        Step::NotHeld(Name::Grant(2)),
        Step::Ack(Name::Grant(1)),
        Step::NotHeld(Name::Grant(1)),
        Step::Lent(1, false),
    ],
);

/// A mark is of one advice, and changes nothing of when it is due.
const PUT: (&str, &[Step]) = (
    "put",
    &[
        Step::Store(1, None),
        Step::Store(2, None),
        Step::WasPut(1, false),
        Step::Tick(&[]),
        Step::Put(1),
        Step::Put(1),
        Step::WasPut(1, true),
        Step::WasPut(2, false),
        Step::Tick(&[]),
        Step::Tick(&[Name::Advice(1), Name::Advice(2)]),
        Step::WasPut(1, true),
        Step::Ack(Name::Advice(1)),
        Step::WasPut(1, false),
    ],
);

/// One more is refused, a tick looks at none of those stored, and a place that is given up is free again.
const THE_LAST_PLACE: (&str, &[Step]) = (
    "the last place",
    &[
        Step::StoreAll(0, 65_535),
        Step::Lend(1, None),
        Step::Store(65_535, Some(StoreFault::Full)),
        Step::Lend(2, Some(GrantFault::Full)),
        Step::Lend(1, None),
        Step::Reserve(1, Some(StoreFault::Full)),
        Step::Tick(&[]),
        Step::Ack(Name::Advice(7)),
        Step::Store(65_535, None),
        Step::Store(65_536, Some(StoreFault::Full)),
        Step::Ack(Name::Grant(1)),
        Step::Lend(2, None),
        Step::Lend(3, Some(GrantFault::Full)),
        Step::Tick(&[]),
    ],
);

/// An identity is noted where no place is free, and takes none.
const NOTED_IN_A_FULL_STORE: (&str, &[Step]) = (
    "noted in a full store",
    &[
        Step::Reserve(65_536, None),
        Step::Note(1, None),
        Step::Known(1, true, false),
        Step::Note(1, Some(StoreFault::Known)),
        Step::Store(2, Some(StoreFault::Full)),
        Step::Known(2, false, false),
        Step::Tick(&[]),
    ],
);

/// Reserved places are taken like others, until they are used or given back.
const RESERVED_PLACES: (&str, &[Step]) = (
    "reserved places",
    &[
        Step::Reserve(65_537, Some(StoreFault::Full)),
        Step::GiveBack(65_536),
        Step::Reserve(65_534, None),
        Step::StoreReserved(2, 1),
        Step::Known(1, true, true),
        Step::Reserve(1, Some(StoreFault::Full)),
        Step::Lend(1, Some(GrantFault::Full)),
        Step::Ack(Name::Advice(1)),
        Step::Reserve(1, None),
        Step::Reserve(1, Some(StoreFault::Full)),
    ],
);

/// The whole store reserved leaves no place.
const ALL_RESERVED: (&str, &[Step]) = (
    "all reserved",
    &[
        Step::Reserve(65_536, None),
        Step::Reserve(1, Some(StoreFault::Full)),
        Step::Reserve(0, None),
    ],
);

/// Memory is there for as many calls as a store has places, more than once, and what is stored stays.
const ROOM_FOR_ALL: (&str, &[Step]) = (
    "room for all",
    &[
        Step::Store(1, None),
        Step::Room(65_535),
        Step::Room(0),
        Step::StoreAll(2, 3),
        Step::Room(65_535),
        Step::Known(1, true, true),
        Step::Lend(1, None),
    ],
);

const LISTS: [(&str, &[Step]); 9] = [
    DUE_AGAIN,
    KNOWN_FOR_GOOD,
    GRANTS,
    PUT,
    THE_LAST_PLACE,
    NOTED_IN_A_FULL_STORE,
    RESERVED_PLACES,
    ALL_RESERVED,
    ROOM_FOR_ALL,
];

#[test]
fn each_list_of_advices(rt: HostRuntime) -> Result<(), Fail> {
    for (name, steps) in LISTS {
        let wrong = first_wrong(rt.alloc(), steps)?;
        assert!(rt; wrong.is_none(), "{name}: step {wrong:?}");
    }
    Ok(())
}
