//! The book of limits: amounts taken, lent and borrowed one by one within limits, and undone.
mod desk;

use desk::{Day, Step, first_wrong};
use standin_book::{LendFault, Over};
use std::test::*;

const SINGLE_BEFORE_DAY: (&str, &[Step]) = (
    "the limit of one amount comes before that of the day",
    &[
        Step::Take(1, Day::Today, 601, Some(Over::Single)),
        Step::Take(1, Day::Today, 1001, Some(Over::Single)),
        Step::Used(Day::Today, 0),
    ],
);

const AT_EACH_LIMIT: (&str, &[Step]) = (
    "an amount at each limit is taken and one more is not",
    &[
        Step::Take(1, Day::Today, 600, None),
        Step::Take(2, Day::Today, 401, Some(Over::Day)),
        Step::Take(2, Day::Today, 400, None),
        Step::Take(3, Day::Today, 1, Some(Over::Day)),
        Step::Used(Day::Today, 1000),
    ],
);

const GIVEN_BACK_TWICE: (&str, &[Step]) = (
    "a take given back twice is given back once",
    &[
        Step::Take(1, Day::Today, 600, None),
        Step::Take(2, Day::Today, 300, None),
        Step::GiveBack(1, true),
        Step::Used(Day::Today, 300),
        Step::GiveBack(1, false),
        Step::Used(Day::Today, 300),
    ],
);

const IN_PART_THEN_WHOLE: (&str, &[Step]) = (
    "given back in part and then whole",
    &[
        Step::Take(1, Day::Today, 600, None),
        Step::GiveBackTo(1, 250, true),
        Step::Used(Day::Today, 250),
        Step::GiveBack(1, true),
        Step::Used(Day::Today, 0),
    ],
);

const IN_PART_THEN_MORE: (&str, &[Step]) = (
    "given back in part again with more changes nothing",
    &[
        Step::Take(1, Day::Today, 600, None),
        Step::GiveBackTo(1, 250, true),
        Step::GiveBackTo(1, 250, false),
        Step::GiveBackTo(1, 500, false),
        Step::Used(Day::Today, 250),
    ],
);

const NEVER_TOOK: (&str, &[Step]) = (
    "a key that never took gives nothing back",
    &[
        Step::Take(1, Day::Today, 600, None),
        Step::GiveBack(2, false),
        Step::GiveBackTo(2, 0, false),
        Step::Used(Day::Today, 600),
    ],
);

const AMOUNT_OF_NOTHING: (&str, &[Step]) = (
    "an amount of nothing has nothing to give back",
    &[
        Step::Take(1, Day::Today, 0, None),
        Step::IsTaken(1, true),
        Step::GiveBack(1, false),
    ],
);

const NEWEST_UNDONE: (&str, &[Step]) = (
    "the newest take undone fits again",
    &[
        Step::Take(1, Day::Today, 600, None),
        Step::Take(2, Day::Today, 400, None),
        Step::Untake(2, true),
        Step::Used(Day::Today, 600),
        Step::IsTaken(2, false),
        Step::Take(2, Day::Today, 400, None),
        Step::Used(Day::Today, 1000),
    ],
);

const OLDER_UNDONE: (&str, &[Step]) = (
    "an older take undone fits again",
    &[
        Step::Take(1, Day::Today, 500, None),
        Step::Take(2, Day::Today, 300, None),
        Step::Take(3, Day::Today, 200, None),
        Step::Untake(1, true),
        Step::Used(Day::Today, 500),
        Step::Take(1, Day::Today, 500, None),
        Step::Used(Day::Today, 1000),
    ],
);

const NEWER_KEEP_KEYS: (&str, &[Step]) = (
    "newer takes keep their keys when an older one is undone",
    &[
        Step::Take(1, Day::Today, 500, None),
        Step::Take(2, Day::Today, 300, None),
        Step::Take(3, Day::Today, 200, None),
        Step::Untake(1, true),
        Step::GiveBackTo(2, 100, true),
        Step::Used(Day::Today, 300),
        Step::GiveBack(3, true),
        Step::Used(Day::Today, 100),
        Step::Takes(2),
    ],
);

const PART_IS_NOT_WHOLE: (&str, &[Step]) = (
    "a take given back in part does not count whole",
    &[
        Step::Take(1, Day::Today, 500, None),
        Step::CountsWhole(1),
        Step::GiveBackTo(1, 499, true),
        Step::Untake(1, false),
        Step::Untake(2, false),
    ],
);

const WHAT_IS_LEFT: (&str, &[Step]) = (
    "no more is lent than is left",
    &[
        Step::Take(1, Day::Today, 600, None),
        Step::Lend(Day::Today, 401, Some(LendFault::TooMuch)),
        Step::Lend(Day::Today, 400, None),
        Step::Lend(Day::Today, 1, Some(LendFault::TooMuch)),
        Step::Loans(1),
    ],
);

const LENT_LESSENS_OWN: (&str, &[Step]) = (
    "what is lent lessens the lender's own limit",
    &[
        Step::Lend(Day::Today, 700, None),
        Step::Take(1, Day::Today, 301, Some(Over::Day)),
        Step::Take(1, Day::Today, 300, None),
        Step::Used(Day::Today, 300),
    ],
);

const MORE_LENT_THAN_DAY: (&str, &[Step]) = (
    "nothing is left where more was lent than the day allows",
    &[
        Step::Lend(Day::Today, 1000, None),
        Step::TakeOf(500, 1, 1, Some(Over::Day)),
        Step::TakeOf(500, 1, 0, None),
    ],
);

const GRANT_TWICE: (&str, &[Step]) = (
    "a grant taken twice counts once",
    &[
        Step::Borrow(1, 1, 100, true),
        Step::Borrow(1, 1, 100, false),
        Step::Take(1, Day::Today, 600, None),
        Step::Take(2, Day::Today, 501, Some(Over::Day)),
        Step::Take(2, Day::Today, 500, None),
        Step::Grants(1),
    ],
);

const TWO_LENDERS: (&str, &[Step]) = (
    "two lenders with one number are two grants",
    &[
        Step::Borrow(1, 1, 100, true),
        Step::Borrow(2, 1, 50, true),
        Step::Take(1, Day::Today, 600, None),
        Step::Take(2, Day::Today, 551, Some(Over::Day)),
        Step::Take(2, Day::Today, 550, None),
    ],
);

const CARDS_AND_DATES: (&str, &[Step]) = (
    "another card and another date are apart",
    &[
        Step::Take(1, Day::Today, 600, None),
        Step::Take(2, Day::OtherCard, 500, None),
        Step::Take(3, Day::Tomorrow, 400, None),
        Step::Lend(Day::OtherCard, 100, None),
        Step::Used(Day::Today, 600),
        Step::Used(Day::OtherCard, 500),
        Step::Used(Day::Tomorrow, 400),
        Step::Lend(Day::Today, 400, None),
    ],
);

const LISTS: [(&str, &[Step]); 17] = [
    SINGLE_BEFORE_DAY,
    AT_EACH_LIMIT,
    GIVEN_BACK_TWICE,
    IN_PART_THEN_WHOLE,
    IN_PART_THEN_MORE,
    NEVER_TOOK,
    AMOUNT_OF_NOTHING,
    NEWEST_UNDONE,
    OLDER_UNDONE,
    NEWER_KEEP_KEYS,
    PART_IS_NOT_WHOLE,
    WHAT_IS_LEFT,
    LENT_LESSENS_OWN,
    MORE_LENT_THAN_DAY,
    GRANT_TWICE,
    TWO_LENDERS,
    CARDS_AND_DATES,
];

#[test]
fn each_list_of_limits(rt: HostRuntime) {
    for (name, steps) in LISTS {
        let wrong = first_wrong(rt.alloc(), steps);
        assert!(rt; wrong.is_none(), "{name}: step {wrong:?}");
    }
}
