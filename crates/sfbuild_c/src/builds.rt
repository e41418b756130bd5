//! The build of indexes: each of its events is a call.
ghost use Rattle.std.specs.Prelude.{◌≡◌, IfOk, IfErr};
ghost use Rattle.build_events.specs.declared.event.Event.{Event};
ghost use Rattle.build_events.specs.declared.reply.Reply.{Reply};
ghost use Rattle.sfbuild_c.specs.Answers.{Answered, Answers, UnlessDone};
ghost use Rattle.sfbuild_c.specs.Building.{Advances, FailsToGoOn, FailsToSwitch, IsGivenUp, IsNotGivenUp, RefusesBuild, StartsBuild, SwitchesTo};

use crate::index_bytes::read_indexes;
use crate::session::Session;
use crate::status::{CLOSED, DONE};
use builder_core::{Dealing, Event, Plan, Reply};
use kept_table::Kept;
use keybytes::Fault;
use run_spool::SpoolChoice;
use std::alloc::Global;

/// Copies the next page of a range for a worker, and tells which.
#[unsafe(no_mangle)]
pub extern "C" fn sfbuild_scan(
    alloc: Global,
    session: &mut Session,
    range: usize,
    worker: usize,
    page: &mut u32,
) -> u8
    ensures told { Answered (Event.Scan range worker) (Reply.Scanned page.new) result session.old session.new }
    ensures kept { UnlessDone result (page.new ≡ page.old) }
{
    match session.step(alloc, Event::Scan { range, worker }) {
        Some(Reply::Scanned { page: copied }) => {
            *page = copied;
            DONE
        }
        Some(Reply::Refused { fault }) => session.tell(fault),
        Some(_) => unreachable!(),
        None => CLOSED,
    }
}

/// Makes the pairs of the next copy that waits for a worker, and tells how many copies it took: 0 or 1.
#[unsafe(no_mangle)]
pub extern "C" fn sfbuild_digest(
    alloc: Global,
    session: &mut Session,
    worker: usize,
    images: &mut usize,
) -> u8
    ensures told { Answered (Event.Digest worker) (Reply.Digested images.new) result session.old session.new }
    ensures kept { UnlessDone result (images.new ≡ images.old) }
{
    match session.step(alloc, Event::Digest { worker }) {
        Some(Reply::Digested { images: taken }) => {
            *images = taken;
            DONE
        }
        Some(Reply::Refused { fault }) => session.tell(fault),
        Some(_) => unreachable!(),
        None => CLOSED,
    }
}

/// Makes the pairs of all copies that wait for a worker, closes its runs, and tells how many copies it took.
#[unsafe(no_mangle)]
pub extern "C" fn sfbuild_seal(
    alloc: Global,
    session: &mut Session,
    worker: usize,
    images: &mut usize,
) -> u8
    ensures told { Answered (Event.Seal worker) (Reply.Sealed images.new) result session.old session.new }
    ensures kept { UnlessDone result (images.new ≡ images.old) }
{
    match session.step(alloc, Event::Seal { worker }) {
        Some(Reply::Sealed { images: taken }) => {
            *images = taken;
            DONE
        }
        Some(Reply::Refused { fault }) => session.tell(fault),
        Some(_) => unreachable!(),
        None => CLOSED,
    }
}

/// Puts the pairs of an index in order, and tells how many.
#[unsafe(no_mangle)]
pub extern "C" fn sfbuild_load(
    alloc: Global,
    session: &mut Session,
    index: usize,
    pairs: &mut usize,
) -> u8
    ensures told { Answered (Event.Load index) (Reply.Loaded pairs.new) result session.old session.new }
    ensures kept { UnlessDone result (pairs.new ≡ pairs.old) }
{
    match session.step(alloc, Event::Load { index }) {
        Some(Reply::Loaded { pairs: loaded }) => {
            *pairs = loaded;
            DONE
        }
        Some(Reply::Refused { fault }) => session.tell(fault),
        Some(_) => unreachable!(),
        None => CLOSED,
    }
}

/// Moves at most so many changes of an index into its ring, and tells how many.
#[unsafe(no_mangle)]
pub extern "C" fn sfbuild_feed(
    alloc: Global,
    session: &mut Session,
    index: usize,
    most: usize,
    entries: &mut usize,
) -> u8
    ensures told { Answered (Event.Feed index most) (Reply.Fed entries.new) result session.old session.new }
    ensures kept { UnlessDone result (entries.new ≡ entries.old) }
{
    match session.step(alloc, Event::Feed { index, most }) {
        Some(Reply::Fed { entries: fed }) => {
            *entries = fed;
            DONE
        }
        Some(Reply::Refused { fault }) => session.tell(fault),
        Some(_) => unreachable!(),
        None => CLOSED,
    }
}

/// Applies at most so many of the changes that wait in an index's ring, and tells how many.
#[unsafe(no_mangle)]
pub extern "C" fn sfbuild_apply(
    alloc: Global,
    session: &mut Session,
    index: usize,
    most: usize,
    entries: &mut usize,
) -> u8
    ensures told { Answered (Event.Apply index most) (Reply.Applied entries.new) result session.old session.new }
    ensures kept { UnlessDone result (entries.new ≡ entries.old) }
{
    match session.step(alloc, Event::Apply { index, most }) {
        Some(Reply::Applied { entries: applied }) => {
            *entries = applied;
            DONE
        }
        Some(Reply::Refused { fault }) => session.tell(fault),
        Some(_) => unreachable!(),
        None => CLOSED,
    }
}

/// Lets no transaction begin until a switch decides or the build is given up.
#[unsafe(no_mangle)]
pub extern "C" fn sfbuild_fence(alloc: Global, session: &mut Session) -> u8
    ensures { Answered Event.Fence Reply.FenceSet result session.old session.new }
{
    match session.step(alloc, Event::Fence) {
        Some(Reply::FenceSet) => DONE,
        Some(Reply::Refused { fault }) => session.tell(fault),
        Some(_) => unreachable!(),
        None => CLOSED,
    }
}

/// Starts the build of these indexes, over ranges of about as many pages, and tells how many pages of the table it reads.
#[unsafe(no_mangle)]
pub extern "C" fn sfbuild_start(
    alloc: Global,
    session: &mut Session,
    indexes: &[u8],
    workers: usize,
    ranges: usize,
    quota: usize,
    pages: &mut u32,
) -> u8
    ensures told { Answers (StartsBuild indexes.now workers ranges quota pages.new) (RefusesBuild indexes.now workers ranges quota)
        result session.old session.new }
    ensures kept { UnlessDone result (pages.new ≡ pages.old) }
{
    let Some(mut table) = session.take(alloc) else {
        return CLOSED;
    };
    let started = start(&mut table, alloc, indexes, workers, ranges, quota);
    session.put(table);
    match started {
        Ok(read) => {
            *pages = read;
            DONE
        }
        Err(fault) => session.tell(fault),
    }
}

/// Starts the build that is asked for.
fn start(
    table: &mut Kept,
    alloc: Global,
    indexes: &[u8],
    workers: usize,
    ranges: usize,
    quota: usize,
) -> Result<u32, Fault>
    ensures started { IfOk result (λ pages. StartsBuild indexes.now workers ranges quota pages table.old table.new) }
    ensures refused { IfErr result (λ fault. RefusesBuild indexes.now workers ranges quota fault table.old table.new) }
{
    if table.progress().running {
        return Err(Fault::BuildRunning);
    }
    let specs = read_indexes(alloc, indexes, &table.schema())?;
    let plan = Plan {
        specs,
        workers,
        dealing: Dealing::Even(ranges),
        tries: 1,
        keep_pairs: false,
    };
    table.start(SpoolChoice::Prefix, quota, plan)
}

/// Does the next piece of the build, and tells whether it was the last, a switch that decided of each index.
#[unsafe(no_mangle)]
pub extern "C" fn sfbuild_step(
    alloc: Global,
    session: &mut Session,
    most: usize,
    ready: &mut bool,
) -> u8
    ensures told { Answers (Advances most ready.new) (FailsToGoOn most) result session.old session.new }
    ensures kept { UnlessDone result (ready.new ≡ ready.old) }
{
    let Some(mut table) = session.take(alloc) else {
        return CLOSED;
    };
    let advanced = table.advance(most);
    session.put(table);
    match advanced {
        Ok(switched) => {
            *ready = switched;
            DONE
        }
        Err(fault) => session.tell(fault),
    }
}

/// Tries to bring the indexes of the build into use, and tells how many these were.
#[unsafe(no_mangle)]
pub extern "C" fn sfbuild_switch(alloc: Global, session: &mut Session, indexes: &mut usize) -> u8
    ensures told { Answers (SwitchesTo indexes.new) FailsToSwitch result session.old session.new }
    ensures kept { UnlessDone result (indexes.new ≡ indexes.old) }
{
    let Some(mut table) = session.take(alloc) else {
        return CLOSED;
    };
    let switched = table.switch();
    let decided = table.decided();
    session.put(table);
    match switched {
        Ok(_number) => {
            *indexes = decided;
            DONE
        }
        Err(fault) => session.tell(fault),
    }
}

/// Gives the build up.
#[unsafe(no_mangle)]
pub extern "C" fn sfbuild_abandon(alloc: Global, session: &mut Session) -> u8
    ensures { Answers IsGivenUp IsNotGivenUp result session.old session.new }
{
    let Some(mut table) = session.take(alloc) else {
        return CLOSED;
    };
    let abandoned = table.abandon();
    session.put(table);
    match abandoned {
        Ok(()) => DONE,
        Err(fault) => session.tell(fault),
    }
}
