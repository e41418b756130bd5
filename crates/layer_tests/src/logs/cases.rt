//! The cases of logs.

use super::Step;
use crate::cases::{Case, DONE, Layer};
use heap_log::Rid;

const FIRST: Rid = Rid { page: 0, slot: 0 };

const SECOND: Rid = Rid { page: 0, slot: 1 };

const FAR: Rid = Rid { page: 3, slot: 9 };

pub static CASES: [Case; 4] = [
    Case {
        name: "a short log",
        layer: Layer::Log(&[
            Step::Delete(1, FIRST),
            Step::Delete(2, SECOND),
            Step::Delete(1, SECOND),
            Step::Delete(1, FIRST),
            Step::Undo(1, 4),
            Step::Undo(1, 3),
            Step::Delete(2, SECOND),
            Step::Len(7),
            Step::Of(1, (Some(4), Some(1), 1)),
            Step::Of(2, (Some(7), Some(7), 2)),
            Step::Of(3, (None, None, 0)),
            Step::At(FIRST, Some(4)),
            Step::At(SECOND, Some(7)),
            // A write leads past those that are undone along its RID, and to each along its transaction.
            Step::Before(4, Some((Some(1), Some(3)))),
            Step::Before(5, None),
            Step::Before(7, Some((Some(2), Some(2)))),
        ]),
        told: DONE,
    },
    Case {
        name: "room for forty more between two writes",
        layer: Layer::Log(&[
            Step::Delete(1, FIRST),
            Step::Reserve(40),
            Step::Delete(1, FIRST),
            Step::Before(2, Some((Some(1), Some(1)))),
        ]),
        told: DONE,
    },
    Case {
        name: "a write past pages and slots that have none",
        layer: Layer::Log(&[
            Step::Delete(1, SECOND),
            Step::Delete(2, FAR),
            Step::Delete(2, FIRST),
            Step::Undo(2, 2),
            Step::At(FAR, Some(2)),
            Step::At(SECOND, Some(1)),
            Step::At(FIRST, Some(3)),
            Step::At(Rid { page: 3, slot: 8 }, None),
            Step::At(Rid { page: 2, slot: 9 }, None),
            Step::At(Rid { page: 4, slot: 0 }, None),
            Step::Of(2, (Some(3), Some(3), 1)),
        ]),
        told: DONE,
    },
    Case {
        name: "the copy of a switch",
        layer: Layer::Log(&[Step::CopySwitch]),
        told: DONE,
    },
];
