//! How a piece of a build catches up with those who write.
ghost use Rattle.std.specs.Prelude.{◌≡◌, ◌≤◌, IfOk, IfErr, OnOk};
ghost use Rattle.kept_table.specs.CatchingUp.{left_over, unfed_of};
ghost use Rattle.kept_table.specs.Pieces.{IsPrepared};
ghost use Rattle.kept_table.specs.Rounds.{AppliesRing, DoesRound, FeedsRing, MovesEach, MovesTo, StopsEach, StopsMoving, StopsRound};
ghost use Rattle.kept_table.specs.Shapes.{HasIndex, HasLoaded};

use crate::advancing::work;
use crate::counted::Counted;
use crate::progress::{indexes_of, left_of};
use crate::waits::Waits;
use builder_core::{Event, Reply, TableRings};
use keybytes::Fault;

/// The most entries that a ring of a side-file has room for.
const RING_ENTRIES: usize = 256;

/// Applies entries of each index of the build that runs until no more are left of it than waited behind the piece before, less `most`. Each has its
/// turn, so that none is left behind while writers go on.
pub(crate) fn catch_up<T: TableRings>(
    counted: &mut Counted<T>,
    waited: &Option<Waits>,
    most: usize,
) -> Result<(), Fault>
    requires { IsPrepared counted.old }
    ensures done { OnOk result (MovesEach most waited.now counted.old counted.new) }
    ensures prepared { OnOk result (IsPrepared counted.new) }
    ensures refused { IfErr result (λ fault. StopsEach most waited.now counted.old fault counted.new) }
{
    counted.laws();
    for index in 0..indexes_of(counted.core()) {
        let least = to_leave(waited, index, left_of(counted.core(), index), most);
        catch_up_one(counted, index, least)?;
    }
    Ok(())
}

/// How many entries a piece leaves of an index of which so many are not fed.
fn to_leave(waited: &Option<Waits>, index: usize, unfed: usize, most: usize) -> usize
    ensures { result ≡ left_over most waited.now index unfed }
{
    let before = match waited {
        Some(waits) => waits.at(index),
        None => unfed,
    };
    before.min(unfed).saturating_sub(most)
}

/// Applies what is in the ring of the index, and as many entries more as leave just so many.
fn catch_up_one<T: TableRings>(
    counted: &mut Counted<T>,
    index: usize,
    least: usize,
) -> Result<(), Fault>
    requires loaded { HasLoaded index counted.old }
    requires some { least ≤ unfed_of counted.old index }
    ensures done { OnOk result (MovesTo index least counted.old counted.new) }
    ensures refused { IfErr result (λ fault. StopsMoving index least counted.old fault counted.new) }
{
    loop {
        let more = left_of(counted.core(), index)
            .saturating_sub(least)
            .min(RING_ENTRIES);
        // A ring from which fewer were applied than it has room for is empty, and had room for all that were to be fed.
        if round(counted, index, more)? < RING_ENTRIES {
            return Ok(());
        }
    }
}

/// Feeds at most so many entries of the index, applies what is in its ring, up to as many as that has room for, and answers how many were applied.
fn round<T: TableRings>(counted: &mut Counted<T>, index: usize, more: usize) -> Result<usize, Fault>
    requires { HasLoaded index counted.old }
    ensures done { IfOk result (λ applied. DoesRound index more counted.old applied counted.new) }
    ensures refused { IfErr result (λ fault. StopsRound index more counted.old fault counted.new) }
{
    feed(counted, index, more)?;
    apply(counted, index)
}

/// Feeds at most so many entries of the index.
fn feed<T: TableRings>(counted: &mut Counted<T>, index: usize, most: usize) -> Result<(), Fault>
    requires { HasIndex index counted.old }
    ensures done { OnOk result (FeedsRing index most counted.old counted.new) }
    ensures refused { IfErr result (λ fault. StopsRound index most counted.old fault counted.new) }
{
    counted.laws();
    let _fed = work(counted, Event::Feed { index, most })?;
    Ok(())
}

/// Applies what is in the ring of the index, up to as many entries as that has room for, and answers how many.
fn apply<T: TableRings>(counted: &mut Counted<T>, index: usize) -> Result<usize, Fault>
    requires { HasLoaded index counted.old }
    ensures done { IfOk result (λ applied. AppliesRing index counted.old applied counted.new) }
    ensures refused { IfErr result (λ fault. StopsRound index 0 counted.old fault counted.new) }
{
    counted.laws();
    let event = Event::Apply {
        index,
        most: RING_ENTRIES,
    };
    match work(counted, event)? {
        Reply::Applied { entries } => Ok(entries),
        _ => unreachable!(),
    }
}
