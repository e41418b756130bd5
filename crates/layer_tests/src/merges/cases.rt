//! The cases of spools and their merge.

use super::{Course, Step};
use crate::cases::{Case, DONE, Layer};
use keybytes::Fault;

/// Two spools with the same five pairs, three runs each.
const TWO_SPOOLS: Course = Course {
    rows: 5,
    slots: 2,
    seals: true,
    opens: false,
    is_double: true,
    pages: 3,
    filled: (3, 3),
    first: &[
        Step::Compares(5, 5),
        Step::Next(0, 3, 3),
        Step::Compares(6, 14),
        Step::Rest(3, 7),
        Step::Next(10, 1, 0),
    ],
    between: 0,
    second: &[],
};

/// One spool, whose page is full by 240 pairs.
const FULL_PAGE: Course = Course {
    rows: 240,
    slots: 255,
    seals: false,
    opens: true,
    is_double: false,
    pages: 1,
    filled: (1, 1),
    first: &[Step::Next(0, 239, 239)],
    between: 1,
    second: &[Step::Next(239, 1, 1)],
};

pub static CASES: [Case; 5] = [
    Case {
        name: "two spools of three runs each are merged",
        layer: Layer::Merges(TWO_SPOOLS),
        told: DONE,
    },
    Case {
        name: "a page is leased until its last pair is given, by a merge of its own",
        layer: Layer::Merges(FULL_PAGE),
        told: DONE,
    },
    Case {
        name: "one pair more than there is is asked for",
        layer: Layer::Merges(Course {
            first: &[Step::Next(0, 241, 240)],
            between: 0,
            second: &[],
            ..FULL_PAGE
        }),
        told: DONE,
    },
    Case {
        name: "one pair more than finds room on a page",
        layer: Layer::Merges(Course {
            rows: 241,
            ..FULL_PAGE
        }),
        told: Err(Fault::NoPage),
    },
    Case {
        name: "of 4,097 pairs 4,096 make a run, and the last one with the seal",
        layer: Layer::Merges(Course {
            rows: 4_097,
            pages: 40,
            filled: (2, 19),
            first: &[],
            between: 19,
            second: &[Step::Next(0, 4_097, 4_097)],
            ..FULL_PAGE
        }),
        told: DONE,
    },
];
