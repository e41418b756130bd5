ghost use Rattle.std.specs.Prelude.{◌≡◌, ◌+◌, [], ◌∷◌, ◌++◌, length};
ghost use mathlib.Core.List.{IsPrefix};
ghost use Rattle.log_prefixes.specs.Knowledge.{IsFirstSeat};

use crate::rule::{Appends, Beside, Board, Compares, Copies};
use crate::view::View;
use crate::{Known, Named};
use atomic_table::Seat;
use heap_log::LogRec;
use std::marker::{Model, PhantomData};
use std::mem::replace;

/// What stays with a log and knows it whole. Contracts see the log.
pub struct Keeper<T: Named> {
    board: Board,
    seat: Seat<LogRec, View<LogRec>>,
    len: usize,
    of: PhantomData<T>,
}

impl<T: Named> Drop for Keeper<T> {
    fn drop(self) {
        let Keeper {
            board: _,
            seat: _,
            len: _,
            of: _,
        } = self;
    }
}

impl<T: Named> Model for Keeper<T> {
    ghost use Rattle.std.specs.Prelude.{◌≡◌, List};
    ghost use Rattle.heap_log.specs.declared.record.LogRec.{LogRec};
    ghost use Rattle.log_prefixes.specs.Knowledge.{IsFirstSeat};

    ghost Value = { List LogRec };

    ghost view = { λ keeper. keeper.seat.me.0.log };

    ghost invariant = { λ keeper. (keeper.board.shared.table_id ≡ T.table)
        × IsFirstSeat T.table keeper.seat.table_id keeper.seat.id keeper.seat.me keeper.len };
}

impl<T: Named> Keeper<T> {
    /// The first seat of the log's table.
    pub(crate) fn new(board: Board, seat: Seat<LogRec, View<LogRec>>, len: usize) -> Keeper<T>
        requires board { board.shared.table_id ≡ T.table }
        requires first { IsFirstSeat T.table seat.table_id seat.id seat.me len }
        ensures { result ≡ seat.me.0.log }
    {
        Keeper {
            board,
            seat,
            len,
            of: PhantomData,
        }
    }

    /// How many records the log has.
    pub fn len(&self) -> usize
        ensures { result ≡ length self.now }
    {
        self.len
    }

    /// The log has grown by a record, which has that number.
    pub fn append(&mut self, number: usize, rec: &LogRec)
        requires { number ≡ length self.old + 1 }
        ensures { self.new ≡ self.old ++ rec.now ∷ [] }
    {
        let board = &self.board;
        let len = self.len as u64;
        let next = len.wrapping_add(1);
        board
            .shared
            .compare_exchange_with::<Appends>(&mut self.seat, 0, len, next, rec);
        self.len = number;
    }

    /// The log as it is, for someone who keeps what is known of it.
    pub fn tell(&mut self) -> Known<T>
        ensures told { result ≡ self.old }
        ensures same { self.new ≡ self.old }
    {
        let board = &self.board;
        let seat = board.shared.split_seat::<Copies>(&mut self.seat);
        Known::new(seat, self.len)
    }

    /// What was known is a beginning of the log.
    pub fn compare(&mut self, known: Known<T>)
        ensures begins { IsPrefix known self.old }
        ensures same { self.new ≡ self.old }
    {
        let seat = known.into_seat();
        let board = &self.board;
        board.shared.join_seat::<Beside>(&mut self.seat, seat);
        board.shared.load::<Compares>(&mut self.seat, 0);
    }

    /// What was known is a beginning of the log, which is known from now on.
    pub fn see(&mut self, known: &mut Known<T>)
        ensures begins { IsPrefix known.old self.old }
        ensures seen { known.new ≡ self.old }
        ensures same { self.new ≡ self.old }
    {
        let now = self.tell();
        let before = replace(known, now);
        self.compare(before);
    }
}
