//! The cases of rows, keys and refusals.

use super::{Keyed, Known, Step};
use crate::cases::{Case, DONE, Layer};
use crate::fixtures::UP;
use keybytes::{Fault, KeyCol, Kind, Rid};

/// The first column, from the greatest cell to the least.
const DOWN: KeyCol = KeyCol {
    column: 0,
    descending: true,
};

const INT: &[Kind] = &[Kind::Int];

const TEXT: &[Kind] = &[Kind::Text];

const FLAG: &[Kind] = &[Kind::Flag];

const MIXED: &[Kind] = &[Kind::Int, Kind::Text, Kind::Int, Kind::Flag];

/// An index of all rows of one number.
const NUMBERS: Keyed = Keyed {
    kinds: INT,
    columns: &[UP],
    row: b"",
    key: b"",
    fault: None,
};

/// Bytes that are no row of the mixed columns.
const UNREAD: Keyed = Keyed {
    kinds: MIXED,
    ..NUMBERS
};

/// Columns of which no key is made.
const REFUSED: Keyed = Keyed {
    kinds: &[Kind::Int; 5],
    fault: Some(Fault::BadColumn),
    ..NUMBERS
};

pub static CASES: [Case; 4] = [
    Case {
        name: "rows and their keys",
        layer: Layer::Rows(&[
            // -5, the least number, -1, 0 and the greatest number
            Step::Keys(Keyed {
                row: b"\x01\xFF\xFF\xFF\xFF\xFF\xFF\xFF\xFB",
                key: b"\x01\x7F\xFF\xFF\xFF\xFF\xFF\xFF\xFB",
                ..NUMBERS
            }),
            Step::Keys(Keyed {
                row: b"\x01\x80\0\0\0\0\0\0\0",
                key: b"\x01\0\0\0\0\0\0\0\0",
                ..NUMBERS
            }),
            Step::Keys(Keyed {
                row: b"\x01\xFF\xFF\xFF\xFF\xFF\xFF\xFF\xFF",
                key: b"\x01\x7F\xFF\xFF\xFF\xFF\xFF\xFF\xFF",
                ..NUMBERS
            }),
            Step::Keys(Keyed {
                row: b"\x01\0\0\0\0\0\0\0\0",
                key: b"\x01\x80\0\0\0\0\0\0\0",
                ..NUMBERS
            }),
            Step::Keys(Keyed {
                row: b"\x01\x7F\xFF\xFF\xFF\xFF\xFF\xFF\xFF",
                key: b"\x01\xFF\xFF\xFF\xFF\xFF\xFF\xFF\xFF",
                ..NUMBERS
            }),
            Step::Keys(Keyed {
                kinds: TEXT,
                row: b"\x01\0",
                key: b"\x01\0\x01",
                ..NUMBERS
            }),
            Step::Keys(Keyed {
                kinds: TEXT,
                row: b"\x01\x01a",
                key: b"\x01a\0\x01",
                ..NUMBERS
            }),
            Step::Keys(Keyed {
                kinds: TEXT,
                row: b"\x01\x02a\0",
                key: b"\x01a\0\xFF\0\x01",
                ..NUMBERS
            }),
            Step::Keys(Keyed {
                kinds: TEXT,
                row: b"\x01\x02ab",
                key: b"\x01ab\0\x01",
                ..NUMBERS
            }),
            // 5, "ab", Null, true
            Step::Keys(Keyed {
                kinds: MIXED,
                columns: &[
                    UP,
                    KeyCol { column: 1, ..UP },
                    KeyCol { column: 2, ..UP },
                    KeyCol { column: 3, ..UP },
                ],
                row: b"\x01\0\0\0\0\0\0\0\x05\x01\x02ab\0\x01\x01",
                key: b"\x01\x80\0\0\0\0\0\0\x05\x01ab\0\x01\0\x01\x01",
                ..NUMBERS
            }),
            // a part of the columns, in another order
            Step::Keys(Keyed {
                kinds: &[Kind::Int; 5],
                columns: &[KeyCol { column: 2, ..UP }, DOWN],
                row: b"\x01\0\0\0\0\0\0\0\x01\x01\0\0\0\0\0\0\0\x02\x01\0\0\0\0\0\0\0\x03\0\0",
                key: b"\x01\x80\0\0\0\0\0\0\x03\xfe\x7f\xff\xff\xff\xff\xff\xff\xfe",
                ..NUMBERS
            }),
            // from the greatest to the least: Null, 5, "a", "", true and false
            Step::Keys(Keyed {
                columns: &[DOWN],
                row: b"\0",
                key: b"\xff",
                ..NUMBERS
            }),
            Step::Keys(Keyed {
                columns: &[DOWN],
                row: b"\x01\0\0\0\0\0\0\0\x05",
                key: b"\xfe\x7f\xff\xff\xff\xff\xff\xff\xfa",
                ..NUMBERS
            }),
            Step::Keys(Keyed {
                kinds: TEXT,
                columns: &[DOWN],
                row: b"\x01\x01a",
                key: b"\xfe\x9e\xff\xfe",
                ..NUMBERS
            }),
            Step::Keys(Keyed {
                kinds: TEXT,
                columns: &[DOWN],
                row: b"\x01\0",
                key: b"\xfe\xff\xfe",
                ..NUMBERS
            }),
            Step::Keys(Keyed {
                kinds: FLAG,
                columns: &[DOWN],
                row: b"\x01\x01",
                key: b"\xfe\xfe",
                ..NUMBERS
            }),
            Step::Keys(Keyed {
                kinds: FLAG,
                columns: &[DOWN],
                row: b"\x01\0",
                key: b"\xfe\xff",
                ..NUMBERS
            }),
            // 5 the one way, "a" the other, Null the one way, true the other; and the same the other way round
            Step::Keys(Keyed {
                kinds: MIXED,
                columns: &[
                    UP,
                    KeyCol { column: 1, ..DOWN },
                    KeyCol { column: 2, ..UP },
                    KeyCol { column: 3, ..DOWN },
                ],
                row: b"\x01\0\0\0\0\0\0\0\x05\x01\x01a\0\x01\x01",
                key: b"\x01\x80\0\0\0\0\0\0\x05\xfe\x9e\xff\xfe\0\xfe\xfe",
                ..NUMBERS
            }),
            Step::Keys(Keyed {
                kinds: MIXED,
                columns: &[
                    DOWN,
                    KeyCol { column: 1, ..UP },
                    KeyCol { column: 2, ..DOWN },
                    KeyCol { column: 3, ..UP },
                ],
                row: b"\x01\0\0\0\0\0\0\0\x05\x01\x01a\0\x01\x01",
                key: b"\xfe\x7f\xff\xff\xff\xff\xff\xff\xfa\x01a\0\x01\xff\x01\x01",
                ..NUMBERS
            }),
        ]),
        told: DONE,
    },
    Case {
        name: "bytes that are no row",
        layer: Layer::Rows(&[
            Step::Keys(Keyed {
                row: b"\x01\0\0\0\0\0\0\0\x05\x01\x65",
                fault: Some(Fault::TextTooLong),
                ..UNREAD
            }),
            Step::Keys(Keyed {
                row: b"\x02\0\0\0\0\0\0\0\x05\x01\x65",
                fault: Some(Fault::RowShape),
                ..UNREAD
            }),
            Step::Keys(Keyed {
                row: b"\x01\0\0\0\0\0\0\0\x05\x01\x02ab\0\x01",
                fault: Some(Fault::RowShape),
                ..UNREAD
            }),
            Step::Keys(Keyed {
                row: b"\x01\0\0\0\0\0\0\0\x05",
                fault: Some(Fault::RowShape),
                ..UNREAD
            }),
        ]),
        told: DONE,
    },
    Case {
        name: "columns of which no key is made",
        layer: Layer::Rows(&[
            Step::Keys(Keyed {
                columns: &[],
                ..REFUSED
            }),
            Step::Keys(Keyed {
                columns: &[
                    UP,
                    KeyCol { column: 1, ..UP },
                    KeyCol { column: 2, ..UP },
                    KeyCol { column: 3, ..UP },
                    KeyCol { column: 4, ..UP },
                ],
                ..REFUSED
            }),
            Step::Keys(Keyed {
                columns: &[KeyCol { column: 1, ..UP }, KeyCol { column: 1, ..UP }],
                ..REFUSED
            }),
            Step::Keys(Keyed {
                columns: &[KeyCol { column: 1, ..UP }, KeyCol { column: 1, ..DOWN }],
                ..REFUSED
            }),
            Step::Keys(Keyed {
                columns: &[KeyCol { column: 5, ..UP }],
                ..REFUSED
            }),
        ]),
        told: DONE,
    },
    Case {
        name: "refusals as scripts know them",
        layer: Layer::Rows(&[
            Step::Names(Known {
                fault: Fault::RowHeld(2),
                number: 22,
                name: "RowHeld",
                text: "transaction 2 holds the row until it ends",
            }),
            Step::Names(Known {
                fault: Fault::Duplicate(4, Rid { page: 12, slot: 3 }),
                number: 30,
                name: "Duplicate",
                text: "ready index 4 has the key already, at 12.3",
            }),
            Step::Names(Known {
                fault: Fault::KeyHeld(4, 7),
                number: 31,
                name: "KeyHeld",
                text: "transaction 7 may still give the key of ready index 4 back",
            }),
        ]),
        told: DONE,
    },
];
