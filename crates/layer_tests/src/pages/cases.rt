//! The cases of pages.

use super::Step;
use crate::cases::{Case, DONE, Layer};
use keybytes::Fault;
use slotted_page::MAX_ROW_SIZE;

const LONG: &[u8] = &[1; MAX_ROW_SIZE];

const OTHER: &[u8] = &[2; MAX_ROW_SIZE];

/// What stands in a copy between two slots and the rows "defgh" and "abc".
const UNUSED: &[u8] = &[0; 4068];

pub static CASES: [Case; 9] = [
    Case {
        name: "an empty page",
        layer: Layer::Page(
            255,
            &[Step::Greatest(4082), Step::Copy(&[], &[(4, &[0x10, 0])])],
        ),
        told: DONE,
    },
    Case {
        name: "a row",
        layer: Layer::Page(
            255,
            &[
                Step::Insert(LONG, Ok(0)),
                Step::Greatest(2852),
                Step::Copy(&[Some(LONG)], &[(4, &[0x0b, 0x38])]),
            ],
        ),
        told: DONE,
    },
    Case {
        name: "a row's room is promised to it until it is trimmed",
        layer: Layer::Page(
            255,
            &[
                Step::Insert(LONG, Ok(0)),
                Step::Update(0, b"short"),
                Step::Greatest(2852),
                Step::Copy(&[Some(b"short")], &[(4, &[0x0b, 0x38])]),
                Step::Trim(0),
                Step::Greatest(4071),
                Step::Copy(&[Some(b"short")], &[(4, &[0x0b, 0x38])]),
            ],
        ),
        told: DONE,
    },
    Case {
        name: "a slot that is held",
        layer: Layer::Page(
            255,
            &[
                Step::Insert(LONG, Ok(0)),
                Step::Hold(0),
                Step::Greatest(2852),
                Step::Copy(&[None], &[(4, &[0x0b, 0x38])]),
            ],
        ),
        told: DONE,
    },
    Case {
        name: "below the place of the first row there is room for the second, so nothing is packed",
        layer: Layer::Page(
            255,
            &[
                Step::Insert(b"abc", Ok(0)),
                Step::Hold(0),
                Step::Free(0),
                Step::Insert(b"x", Ok(0)),
                Step::Greatest(4075),
                Step::Copy(&[Some(b"x")], &[(4, &[0x0f, 0xfc])]),
            ],
        ),
        told: DONE,
    },
    Case {
        name: "the fourth row has the room of the first, for which the others are packed",
        layer: Layer::Page(
            255,
            &[
                Step::Insert(LONG, Ok(0)),
                Step::Insert(OTHER, Ok(1)),
                Step::Insert(LONG, Ok(2)),
                Step::Hold(0),
                Step::Free(0),
                Step::Insert(OTHER, Ok(0)),
                Step::Greatest(392),
                Step::Copy(
                    &[Some(OTHER), Some(OTHER), Some(LONG)],
                    &[(4, &[0x01, 0xa8])],
                ),
            ],
        ),
        told: DONE,
    },
    Case {
        name: "no slots",
        layer: Layer::Page(0, &[]),
        told: Err(Fault::BadCount),
    },
    Case {
        name: "a slot too few",
        layer: Layer::Page(
            1,
            &[
                Step::Insert(b"one", Ok(0)),
                Step::Insert(b"two", Err(Fault::PageFull)),
            ],
        ),
        told: DONE,
    },
    Case {
        name: "the copy of a row, and of a slot that is held",
        layer: Layer::Page(
            255,
            &[
                Step::Insert(b"abc", Ok(0)),
                Step::Insert(b"defgh", Ok(1)),
                Step::Hold(1),
                Step::Copy(
                    &[Some(b"abc"), None],
                    &[
                        (0, &[0x53, 0x50, 0, 2, 0x0f, 0xf8, 0, 0]),
                        (8, &[0x0f, 0xfd, 0, 3, 0, 3]),
                        (14, &[0, 0, 0xff, 0xff, 0, 5]),
                        (20, UNUSED),
                        (4088, b"defghabc"),
                    ],
                ),
            ],
        ),
        told: DONE,
    },
];
