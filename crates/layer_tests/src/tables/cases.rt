//! The cases of tables.

use super::{Shape, Step};
use crate::cases::{Case, DONE, Layer};
use crate::fixtures::FIRST;
use keybytes::{Fault, Rid};

const SECOND: Rid = Rid { page: 1, slot: 0 };

pub static CASES: [Case; 5] = [
    Case {
        name: "two pages of one slot are full",
        layer: Layer::Table(
            Shape(1, 2),
            &[
                Step::Begin,
                Step::Fill(2, Ok(SECOND)),
                Step::Fill(1, Err(Fault::TableFull)),
            ],
        ),
        told: DONE,
    },
    Case {
        name: "reads are visits",
        layer: Layer::Table(
            Shape(4, 4),
            &[
                Step::Begin,
                Step::Fill(1, Ok(FIRST)),
                Step::Get(FIRST, true),
                Step::Get(SECOND, false),
                Step::Visits(1),
                Step::List(0, 1),
                Step::Visits(2),
                Step::Copy(0, 1),
                Step::Visits(3),
                Step::Records(1),
                Step::Visits(4),
            ],
        ),
        told: DONE,
    },
    Case {
        name: "no slot",
        layer: Layer::Table(Shape(0, 1), &[]),
        told: Err(Fault::BadCount),
    },
    Case {
        name: "no page",
        layer: Layer::Table(Shape(1, 0), &[]),
        told: Err(Fault::BadCount),
    },
    Case {
        name: "too many pages",
        layer: Layer::Table(Shape(1, 65_537), &[]),
        told: Err(Fault::BadCount),
    },
];
