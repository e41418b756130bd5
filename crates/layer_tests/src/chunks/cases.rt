//! The cases of lists and queues.

use super::{ListStep, QueueStep};
use crate::cases::{Case, DONE, Layer};

pub static CASES: [Case; 12] = [
    Case {
        name: "a list of some chunks",
        layer: Layer::List(&[
            ListStep::Push(3000),
            ListStep::Len(3000),
            ListStep::At(0, Some(0)),
            ListStep::At(1023, Some(1023)),
            ListStep::At(1024, Some(1024)),
            ListStep::At(2999, Some(2999)),
            ListStep::At(3000, None),
            ListStep::Last(Some(2999)),
            ListStep::Write(2048, 7),
            ListStep::At(2048, Some(7)),
            ListStep::Sum(3000, 4_498_500 - 2048 + 7),
        ]),
        told: DONE,
    },
    Case {
        name: "an empty list",
        layer: Layer::List(&[
            ListStep::Len(0),
            ListStep::At(0, None),
            ListStep::Last(None),
            ListStep::Sum(0, 0),
        ]),
        told: DONE,
    },
    Case {
        name: "a list of one chunk",
        layer: Layer::List(&[
            ListStep::Push(1024),
            ListStep::Len(1024),
            ListStep::Last(Some(1023)),
        ]),
        told: DONE,
    },
    Case {
        name: "a queue gives in order",
        layer: Layer::Queue(&[
            QueueStep::Push(5000),
            QueueStep::Left(5000),
            QueueStep::Pop(2000),
            QueueStep::Left(3000),
            QueueStep::Push(4000),
            QueueStep::Pop(7000),
            QueueStep::Left(0),
        ]),
        told: DONE,
    },
    Case {
        name: "a queue has no more than it was given",
        layer: Layer::Queue(&[QueueStep::Push(2), QueueStep::Pop(3)]),
        told: Ok(Some(1)),
    },
    Case {
        name: "a queue takes more once it was cleared",
        layer: Layer::Queue(&[
            QueueStep::Push(3000),
            QueueStep::Clear,
            QueueStep::Left(0),
            QueueStep::Push(1),
            QueueStep::Pop(1),
            QueueStep::Left(0),
        ]),
        told: DONE,
    },
    Case {
        name: "all chunks of a queue go",
        layer: Layer::Queue(&[
            QueueStep::Push(5000),
            QueueStep::Take(5000, 5000),
            QueueStep::Left(0),
            QueueStep::Push(2),
            QueueStep::Left(2),
        ]),
        told: DONE,
    },
    Case {
        name: "the last chunk stays",
        layer: Layer::Queue(&[
            QueueStep::Push(5000),
            QueueStep::Take(4999, 4096),
            QueueStep::Left(904),
            QueueStep::Pop(904),
        ]),
        told: DONE,
    },
    Case {
        name: "the first chunk goes",
        layer: Layer::Queue(&[
            QueueStep::Push(5000),
            QueueStep::Take(1024, 1024),
            QueueStep::Take(1023, 0),
            QueueStep::Left(3976),
        ]),
        told: DONE,
    },
    Case {
        name: "a first chunk that is used up in part goes",
        layer: Layer::Queue(&[
            QueueStep::Push(5000),
            QueueStep::Pop(24),
            QueueStep::Take(999, 0),
            QueueStep::Take(1000, 1000),
            QueueStep::Pop(500),
            QueueStep::Take(3000, 2572),
            QueueStep::Left(904),
        ]),
        told: DONE,
    },
    Case {
        name: "the last chunk is used up in part, and goes",
        layer: Layer::Queue(&[
            QueueStep::Push(5000),
            QueueStep::Pop(4500),
            QueueStep::Take(600, 500),
            QueueStep::Take(600, 0),
            QueueStep::Left(0),
        ]),
        told: DONE,
    },
    Case {
        name: "a chunk of a few goes whole or not",
        layer: Layer::Queue(&[
            QueueStep::Push(3),
            QueueStep::Take(2, 0),
            QueueStep::Take(3, 3),
        ]),
        told: DONE,
    },
];
