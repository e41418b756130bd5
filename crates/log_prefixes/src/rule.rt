//! The table of one word that a log's seats share, and the moves that its rule allows.

use crate::view::View;
use atomic_table::{Join, Play, Split, Table, TableRule};
use heap_log::LogRec;
use heap_table::Heap;
use std::alloc::Global;

pub(crate) type Board = Table<LogRec, View<LogRec>, Heap, Beginnings, Global>;

/// The word is the length of the first seat's log, modulo 2^64, and what any seat knows is a beginning of that log.
pub struct Beginnings;

impl TableRule<LogRec, View<LogRec>, Heap> for Beginnings {
    ghost use Rattle.log_prefixes.specs.Knowledge.{knower, Kept};

    ghost holds = { λ opening s. Kept s.words s.views };

    ghost first = { λ opening. knower opening.state.log };
}

/// The log grows by the record that is said.
pub struct Appends;

impl<R> Play<R, View<R>> for Appends {
    ghost use Rattle.log_prefixes.specs.Knowledge.{Appended};

    ghost then = { Appended };
}

/// What stands beside the log is seen to be a beginning of it.
pub struct Compares;

impl<R> Play<R, View<R>> for Compares {
    ghost use Rattle.log_prefixes.specs.Knowledge.{Compared};

    ghost then = { Compared };
}

/// A new seat knows what this one does.
pub struct Copies;

impl<R> Split<View<R>> for Copies {
    ghost use Rattle.log_prefixes.specs.Knowledge.{knower};

    ghost left = { λ v. v };

    ghost right = { λ v. knower v.log };
}

/// What another seat knows is put beside this one's log.
pub struct Beside;

impl<R> Join<View<R>> for Beside {
    ghost use Rattle.std.specs.Prelude.{[]};
    ghost use Rattle.log_prefixes.specs.Knowledge.{knower};

    ghost both = { λ v w. record { log = v.log; beside = w.log } };

    ghost spent = { knower [] };
}
