//! Four sessions in threads of their own, beside a build or none.

use crate::made::come_back;
use crate::meetings::{Asked, Meeting};
use crate::programs::does;
use crate::together::program_of;
use crate::watch::Watch;
use builder_core::Ends;
use crew::{BuildFault, Opened, Receipt, Report, Table, build};
use run_spool::Spool;
use std::alloc::Global;
use std::sync::Wait;
use std::sync::atomic::Ordering;
use std::thread::{Threads, join};

/// The receipts of sessions, and whether all went as it may.
pub type Written<T> = (Vec<Receipt<T>>, bool);

/// What a build came to, if there was one.
pub type Told<T> = Option<Result<Report<T>, BuildFault>>;

/// What the session of a place does. A thread takes its number along, which needs no proof that a program may be shared.
fn by_one<T: Opened, R: Wait>(
    rt: &R,
    alloc: Global,
    table: &Table<T>,
    watch: &Watch,
    place: usize,
) -> Written<T> {
    let mut receipts = Vec::new(alloc);
    let mut session = table.session(rt);
    let program = program_of(place);
    let is_fine = does(
        rt,
        alloc,
        table,
        &mut session,
        &mut receipts,
        program,
        watch,
    );
    (receipts, is_fine)
}

/// Puts receipts behind others.
pub fn gathered<T: Opened>(one: Written<T>, two: Written<T>) -> Written<T> {
    let (mut receipts, mut is_fine) = one;
    for receipt in two.0 {
        is_fine &= receipts.push(receipt).is_ok();
    }
    (receipts, is_fine && two.1)
}

/// Two sessions, of that place and the next.
fn by_two<T: Opened + Send + Sync, R: Threads + Wait + Sync>(
    rt: &R,
    alloc: Global,
    table: &Table<T>,
    watch: &Watch,
    place: usize,
) -> Written<T> {
    let next = place.saturating_add(1);
    let (one, two) = join(
        rt,
        move || by_one(rt, alloc, table, watch, place),
        move || by_one(rt, alloc, table, watch, next),
    );
    gathered(one, two)
}

fn by_four<T: Opened + Send + Sync, R: Threads + Wait + Sync>(
    rt: &R,
    alloc: Global,
    table: &Table<T>,
    watch: &Watch,
    place: usize,
) -> Written<T> {
    let third = place.saturating_add(2);
    let (one, two) = join(
        rt,
        move || by_two(rt, alloc, table, watch, place),
        move || by_two(rt, alloc, table, watch, third),
    );
    gathered(one, two)
}

/// What a build comes to, whose end is told, and whether its spools come back.
fn built<S: Spool + Send, T: Opened + Send + Sync, R: Threads + Wait + Sync>(
    rt: &R,
    alloc: Global,
    table: &Table<T>,
    ends: Ends<T>,
    spools: Vec<S>,
    asked: &Asked,
    watch: &Watch,
) -> (Result<Report<T>, BuildFault>, bool) {
    let (_ends, spools, told) = build(rt, alloc, table, ends, &asked.plan, spools, watch);
    watch.is_over.store(true, Ordering::SeqCst);
    (told, come_back(spools, &asked.stock))
}

/// What four sessions write, beside a build or none.
pub fn written<S: Spool + Send, T: Opened + Send + Sync, R: Threads + Wait + Sync>(
    rt: &R,
    alloc: Global,
    table: &Table<T>,
    ends: Ends<T>,
    spools: Vec<S>,
    asked: &Asked,
    watch: &Watch,
    meeting: &Meeting,
) -> (Written<T>, Told<T>) {
    let place = meeting.place.saturating_mul(4);
    if !meeting.is_built {
        return (by_four(rt, alloc, table, watch, place), None);
    }
    let (written, built) = join(
        rt,
        move || by_four(rt, alloc, table, watch, place),
        || built(rt, alloc, table, ends, spools, asked, watch),
    );
    let (receipts, is_fine) = written;
    let (told, are_back) = built;
    ((receipts, is_fine && are_back), Some(told))
}
