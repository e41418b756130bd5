//! The cases of side-files, and of what their entries make of an index.

use super::Short;
use super::Step::{Append, Apply, ApplyBatch, Counts, Feed, FeedBatch, Pages, Reset, Take};
use crate::cases::{Case, DONE, Layer};
use side_file::Op::{Delete, Insert};

const FIVE: [Short; 5] = [
    (7, Insert, b'a', 0),
    (7, Delete, b'a', 1),
    (7, Insert, b'a', 2),
    (7, Delete, b'a', 3),
    (7, Insert, b'a', 4),
];

const TEN: [Short; 10] = [
    (7, Insert, b'a', 0),
    (7, Insert, b'a', 1),
    (7, Insert, b'a', 2),
    (7, Insert, b'a', 3),
    (7, Insert, b'a', 4),
    (7, Insert, b'a', 5),
    (7, Insert, b'a', 6),
    (7, Insert, b'a', 7),
    (7, Insert, b'a', 8),
    (7, Insert, b'a', 9),
];

pub static CASES: [Case; 17] = [
    Case {
        name: "a reset drops what is left",
        layer: Layer::Entries(&[
            Append(&FIVE),
            Feed(2, 2),
            Counts(2, 3, 2),
            Reset,
            Counts(0, 0, 2),
            Append(&[(7, Insert, b'a', 0)]),
            Feed(9, 1),
            Counts(1, 0, 3),
            Take(&[
                (7, Insert, b'a', 0),
                (7, Delete, b'a', 1),
                (7, Insert, b'a', 0),
            ]),
            Counts(1, 0, 0),
        ]),
        told: DONE,
    },
    Case {
        name: "what is left is fed in order",
        layer: Layer::Entries(&[
            Append(&FIVE),
            Feed(2, 2),
            Take(&[(7, Insert, b'a', 0), (7, Delete, b'a', 1)]),
            Feed(9, 3),
            Take(&[
                (7, Insert, b'a', 2),
                (7, Delete, b'a', 3),
                (7, Insert, b'a', 4),
            ]),
            Counts(5, 0, 0),
        ]),
        told: DONE,
    },
    Case {
        name: "no entry",
        layer: Layer::Entries(&[Feed(1, 0), Apply(256, 0), Pages(&[])]),
        told: DONE,
    },
    Case {
        name: "keys in order",
        layer: Layer::Entries(&[
            Append(&[(7, Insert, b'b', 0), (7, Insert, b'a', 1)]),
            Feed(1, 1),
            Feed(256, 1),
            Apply(256, 2),
            Pages(&[1, 0]),
        ]),
        told: DONE,
    },
    Case {
        name: "RIDs in order",
        layer: Layer::Entries(&[
            Append(&[(7, Insert, b'a', 2), (7, Insert, b'a', 1)]),
            Feed(1, 1),
            Feed(256, 1),
            Apply(256, 2),
            Pages(&[1, 2]),
        ]),
        told: DONE,
    },
    Case {
        name: "inserts of other builds",
        layer: Layer::Entries(&[
            Append(&[(6, Insert, b'a', 0), (8, Insert, b'a', 0)]),
            Feed(1, 1),
            Feed(256, 1),
            Apply(256, 2),
            Pages(&[]),
        ]),
        told: DONE,
    },
    Case {
        name: "a deletion of another build",
        layer: Layer::Entries(&[
            Append(&[(7, Insert, b'a', 0), (6, Delete, b'a', 0)]),
            Feed(1, 1),
            Feed(256, 1),
            Apply(256, 2),
            Pages(&[0]),
        ]),
        told: DONE,
    },
    Case {
        name: "a deletion of what is not there",
        layer: Layer::Entries(&[
            Append(&[(7, Delete, b'a', 0), (7, Insert, b'b', 0)]),
            Feed(1, 1),
            Feed(256, 1),
            Apply(256, 2),
            Pages(&[0]),
        ]),
        told: DONE,
    },
    Case {
        name: "an insert of what is there",
        layer: Layer::Entries(&[
            Append(&[(7, Insert, b'a', 0), (7, Insert, b'a', 0)]),
            Feed(1, 1),
            Feed(256, 1),
            Apply(256, 2),
            Pages(&[0]),
        ]),
        told: DONE,
    },
    Case {
        name: "deletions",
        layer: Layer::Entries(&[
            Append(&[
                (7, Insert, b'a', 0),
                (7, Insert, b'b', 1),
                (7, Delete, b'a', 0),
                (7, Delete, b'a', 1),
            ]),
            Feed(1, 1),
            Feed(256, 3),
            Apply(256, 4),
            Pages(&[1]),
        ]),
        told: DONE,
    },
    Case {
        name: "no more than asked",
        layer: Layer::Entries(&[
            Append(&[
                (7, Insert, b'a', 0),
                (6, Insert, b'a', 1),
                (7, Insert, b'a', 2),
                (7, Insert, b'a', 3),
                (7, Insert, b'a', 4),
                (7, Insert, b'a', 5),
            ]),
            Feed(5, 5),
            Apply(3, 3),
            Pages(&[0, 2]),
            Apply(9, 2),
            Apply(9, 0),
            Counts(5, 1, 0),
            Pages(&[0, 2, 3, 4]),
        ]),
        told: DONE,
    },
    Case {
        name: "ten entries through the ring",
        layer: Layer::Entries(&[Append(&TEN), Feed(10, 10), Counts(10, 0, 10), Take(&TEN)]),
        told: DONE,
    },
    Case {
        name: "ten entries into an index",
        layer: Layer::Entries(&[
            Append(&TEN),
            Feed(256, 10),
            Apply(256, 10),
            Pages(&[0, 1, 2, 3, 4, 5, 6, 7, 8, 9]),
        ]),
        told: DONE,
    },
    Case {
        name: "a batch is all that is left",
        layer: Layer::Entries(&[
            Append(&FIVE),
            Feed(1, 1),
            FeedBatch(9, 4),
            Counts(5, 0, 5),
            ApplyBatch(5, 5),
            Counts(5, 0, 0),
            Pages(&[0, 2, 4]),
        ]),
        told: DONE,
    },
    Case {
        name: "entries of one pair stay in order in a batch",
        layer: Layer::Entries(&[
            Append(&[
                (7, Insert, b'b', 0),
                (7, Insert, b'a', 1),
                (7, Delete, b'b', 0),
                (7, Insert, b'b', 2),
                (8, Insert, b'a', 9),
                (7, Delete, b'a', 1),
                (7, Insert, b'a', 1),
            ]),
            FeedBatch(9, 7),
            ApplyBatch(7, 6),
            Pages(&[1, 2]),
        ]),
        told: DONE,
    },
    Case {
        name: "a batch takes no part of a chunk",
        layer: Layer::Entries(&[
            Append(&FIVE),
            FeedBatch(4, 0),
            Counts(0, 5, 0),
            FeedBatch(5, 5),
            Counts(5, 0, 5),
        ]),
        told: DONE,
    },
    Case {
        name: "a batch is taken one by one",
        layer: Layer::Entries(&[
            Append(&FIVE),
            FeedBatch(9, 5),
            Take(&[(7, Insert, b'a', 0), (7, Delete, b'a', 1)]),
            Append(&[(7, Insert, b'a', 5)]),
            Feed(1, 1),
            Counts(6, 0, 4),
            Apply(256, 4),
            Pages(&[2, 4, 5]),
        ]),
        told: DONE,
    },
];
