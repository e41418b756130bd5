ghost use Rattle.std.specs.Prelude.{◌≡◌, [], length};

use crate::Named;
use crate::view::View;
use atomic_table::Seat;
use heap_log::LogRec;
use std::marker::{Model, PhantomData};

/// A beginning of a log, which stays one after the hold of the lock in which it was learned.
pub struct Known<T: Named> {
    seat: Seat<LogRec, View<LogRec>>,
    len: usize,
    of: PhantomData<T>,
}

impl<T: Named> Drop for Known<T> {
    fn drop(self) {
        let Known {
            seat: _,
            len: _,
            of: _,
        } = self;
    }
}

impl<T: Named> Model for Known<T> {
    ghost use Rattle.std.specs.Prelude.{List};
    ghost use Rattle.heap_log.specs.declared.record.LogRec.{LogRec};
    ghost use Rattle.log_prefixes.specs.Knowledge.{IsSeat};

    ghost Value = { List LogRec };

    ghost view = { λ known. known.seat.me.0.log };

    ghost invariant = { λ known. IsSeat T.table known.seat.table_id known.seat.me known.len };
}

impl<T: Named> Known<T> {
    /// What a seat of the log's table knows.
    pub(crate) fn new(seat: Seat<LogRec, View<LogRec>>, len: usize) -> Known<T>
        requires seat { seat.table_id ≡ T.table }
        requires bare { seat.me.1 ≡ [] }
        requires counted { len ≡ length seat.me.0.log }
        ensures { result ≡ seat.me.0.log }
    {
        Known {
            seat,
            len,
            of: PhantomData,
        }
    }

    /// How many records are known: the number of the last of them, or 0.
    pub fn len(&self) -> usize
        ensures { result ≡ length self.now }
    {
        self.len
    }

    /// The seat alone.
    pub(crate) fn into_seat(self) -> Seat<LogRec, View<LogRec>>
        ensures known { result.me.0.log ≡ self }
        ensures seat { result.table_id ≡ T.table }
        ensures bare { result.me.1 ≡ [] }
    {
        let Known {
            seat,
            len: _,
            of: _,
        } = self;
        seat
    }
}
