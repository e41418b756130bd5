ghost use Rattle.std.specs.Prelude.{◌≡◌, IfOk};

use crate::rule::Board;
use crate::view::View;
use crate::{Keeper, Named};
use atomic_table::Seat;
use heap_log::LogRec;
use heap_table::Heap;
use std::alloc::{AllocError, Global};
use std::marker::Model;

/// What will know the log of a table, once that has a name.
#[derive(Drop)]
pub struct Unnamed {
    board: Board,
    seat: Seat<LogRec, View<LogRec>>,
    len: usize,
}

impl Model for Unnamed {
    ghost use Rattle.log_prefixes.specs.Knowledge.{Opening, IsFirstSeat};

    ghost Value = { Opening };

    ghost view = { λ u. record { table = u.board.shared.table_id; log = u.seat.me.0.log } };

    ghost invariant = { λ u. IsFirstSeat u.board.shared.table_id u.seat.table_id u.seat.id u.seat.me u.len };
}

impl Unnamed {
    /// Knows the log of this table. It takes two small blocks of memory, the last that a keeper ever takes.
    pub fn new(alloc: Global, heap: &Heap) -> Result<Unnamed, AllocError>
        ensures { IfOk result (λ u. u.log ≡ heap.now.state.log) }
    {
        let len = heap.records();
        let (board, seat) = Board::of_words(alloc, &[len as u64], heap)?;
        Ok(Unnamed { board, seat, len })
    }

    /// The keeper of the log, under its name.
    pub fn named<T: Named>(self) -> Keeper<T>
        requires { self.table ≡ T.table }
        ensures { result ≡ self.log }
    {
        let Unnamed { board, seat, len } = self;
        Keeper::new(board, seat, len)
    }
}
