ghost use Rattle.std.specs.Prelude.{◌≡◌, ◌⊎◌, [], map, Some};
ghost use Rattle.rtrb.specs.Ring.{sent, known_free};
ghost use Rattle.run_merge.specs.Merging.{all_runs};
ghost use Rattle.run_spool.specs.Spools.{AreSorted, all_pairs};
ghost use Rattle.bulk_load.specs.Each.{AreEachOnce, in_order};
ghost use Rattle.bulk_load.specs.Streams.{first_mark, stream_at};

use crate::batch::Batch;
use crate::loading::Loading;
use crate::once::Once;
use crate::sender::Sender;
use crossbeam_utils::sync::Parker;
use keybytes::{Fault, Pair};
use rtrb::{Consumer, Producer};
use run_spool::Spool;
use std::alloc::Global;
use std::collections::VecDeque;
use std::marker::Model;
use std::sync::Wait;
use tree_nodes::Leaf;

/// What a thread of a load gets: the spools whose runs it merges, and its ends of three rings. Contracts see the stakes of the spools.
#[derive(Drop)]
pub(crate) struct Seat<S: Spool, T: Loading> {
    number: usize,
    spools: Vec<S>,
    filled: Producer<Batch<T>>,
    spare: Consumer<VecDeque<Pair>>,
    waiting: Parker,
    leaves: Producer<Leaf>,
}

impl<S: Spool, T: Loading> Model for Seat<S, T> {
    ghost use Rattle.std.specs.Prelude.{◌≡◌, [], List, Option, map};
    ghost use Rattle.rtrb.specs.Ring.{sent};
    ghost use Rattle.run_merge.specs.Merging.{all_runs};
    ghost use Rattle.run_spool.specs.Spools.{AreSorted, all_pairs};
    ghost use Rattle.spool_ledger.specs.Accounts.{Stake};
    ghost use Rattle.bulk_load.specs.Each.{AreEachOnce, in_order};
    ghost use Rattle.bulk_load.specs.Streams.{stream_at};

    ghost Value = { List (Option Stake) };

    ghost view = { λ seat. map S.stake seat.spools.items };

    ghost invariant = { λ seat. AreSorted (all_runs (map S.runs seat.spools.items))
        × AreEachOnce (all_pairs (all_runs (map S.runs seat.spools.items)))
        × (in_order (all_runs (map S.runs seat.spools.items)) ≡ stream_at T.streams seat.number)
        × (sent seat.filled ≡ []) };
}

/// Puts a mark into a ring that a stream breaks off before it begins.
fn break_off<T: Loading>(
    alloc: Global,
    number: usize,
    filled: &mut Producer<Batch<T>>,
    fault: Fault,
)
    requires { sent filled.old ≡ [] }
    ensures { (first_mark (sent filled.new) ≡ Some fault) ⊎ (known_free filled.new ≡ 0) }
{
    if !filled.is_full() {
        let none = VecDeque::new(alloc);
        filled.push_reserved(Batch::new(number, 0, 0, none, false, Some(fault)));
    }
}

impl<S: Spool, T: Loading> Seat<S, T> {
    pub(crate) fn new(
        number: usize,
        spools: Vec<S>,
        filled: Producer<Batch<T>>,
        spare: Consumer<VecDeque<Pair>>,
        waiting: Parker,
        leaves: Producer<Leaf>,
    ) -> Seat<S, T>
        requires sorted { AreSorted (all_runs (map S.runs spools.items)) }
        requires once { AreEachOnce (all_pairs (all_runs (map S.runs spools.items))) }
        requires stream { in_order (all_runs (map S.runs spools.items)) ≡ stream_at T.streams number }
        requires new { sent filled ≡ [] }
        ensures { result ≡ map S.stake spools.items }
    {
        Seat {
            number,
            spools,
            filled,
            spare,
            waiting,
            leaves,
        }
    }

    /// Its spools.
    pub(crate) fn into_spools(self) -> Vec<S>
        ensures { map S.stake result.items ≡ self }
    {
        let Seat {
            number: _,
            spools,
            filled: _,
            spare: _,
            waiting: _,
            leaves: _,
        } = self;
        spools
    }

    /// Merges the spools' runs, and puts all of their pairs into the ring; where that is refused, a mark that the stream breaks off. Answers the spools.
    pub(crate) fn work<R: Wait>(self, rt: &R, alloc: Global) -> Vec<S>
        ensures { map S.stake result.items ≡ self }
    {
        let Seat {
            number,
            spools,
            mut filled,
            spare,
            waiting,
            leaves,
        } = self;
        match Once::new(alloc, spools) {
            Ok(once) => {
                let mut sender = Sender::new(number, once, filled, spare, waiting, leaves);
                sender.run(rt, alloc);
                sender.into_spools()
            }
            Err((spools, fault)) => {
                break_off(alloc, number, &mut filled, fault);
                spools
            }
        }
    }
}
