//! Seats in threads of their own.
ghost use Rattle.std.specs.Prelude.{◌≡◌, ◌≤◌, ◌+◌, ◌++◌, ◌∷◌, [], length, map, IfErr, IfOk, vec_len, vec_capacity};
ghost use Rattle.std.specs.List.{flat_map};

use crate::loading::Loading;
use crate::seat::Seat;
use crate::stream::Stream;
use run_spool::Spool;
use std::alloc::Global;
use std::snapshot::Snapshot;
use std::sync::Wait;
use std::thread::{Promise, PromisedHandle, Scope, Threads};

/// The spools that come back have the stakes of those that went.
#[derive(Drop)]
pub(crate) struct ComesBack<S: Spool, T: Loading> {
    pub(crate) seat: Snapshot<Seat<S, T>>,
}

impl<S: Spool, T: Loading> Promise<Vec<S>> for ComesBack<S, T> {
    ghost use Rattle.std.specs.Prelude.{◌≡◌, map};

    ghost kept_by = { λ promise spools. map S.stake spools.items ≡ promise.seat.value };
}

/// What a thread does with its seat.
fn work<S: Spool, T: Loading, R: Wait>(rt: &R, alloc: Global, seat: Seat<S, T>) -> Vec<S>
    ensures { map S.stake result.items ≡ seat }
{
    seat.work(rt, alloc)
}

/// Starts a thread for each seat. Where one can't be started the ends that take are let go, so that each sender ends; the spools of that seat come back,
/// and the seats behind it.
pub(crate) fn start<
    's,
    'e,
    S: Spool + Send + 'e,
    T: Loading + Send + Sync + 'e,
    R: Threads + Wait + Sync,
>(
    scope: &'s Scope<'s, &'e ()>,
    rt: &'e R,
    alloc: Global,
    mut seats: Vec<Seat<S, T>>,
    streams: Vec<Stream<'e, R, T>>,
    mut handles: Vec<PromisedHandle<Vec<S>, ComesBack<S, T>>>,
) -> (
    Vec<PromisedHandle<Vec<S>, ComesBack<S, T>>>,
    Result<Vec<Stream<'e, R, T>>, (Vec<S>, Vec<Seat<S, T>>)>,
)
    requires none { handles.items ≡ [] }
    requires room { vec_len seats ≤ vec_capacity handles }
    ensures all { IfOk result.1 (λ _. map (λ handle. handle.promise.seat.value) result.0.items ≡ seats.items) }
    ensures same { IfOk result.1 (λ back. back.items ≡ streams.entry.items) }
    ensures rest { IfErr result.1 (λ rest. map (λ handle. handle.promise.seat.value) result.0.items ++ map S.stake rest.0.items ∷ rest.1.items ≡ seats.items) }
{
    while !seats.is_empty() {
        let seat = seats.remove(0);
        let promise = ComesBack {
            seat: Snapshot::of(&seat),
        };
        match scope.spawn_with(promise, move || work(rt, alloc, seat)) {
            Ok(handle) => handles.push_reserved(handle),
            Err(refused) => {
                drop(streams);
                return (handles, Err(((refused.value)(), seats)));
            }
        }
    }
    (handles, Ok(streams))
}

/// Puts spools behind others. There is room for them.
fn put_behind<S: Spool>(home: &mut Vec<S>, spools: Vec<S>)
    requires { vec_len home.old + vec_len spools ≤ vec_capacity home.old }
    ensures all { home.new.items ≡ home.old.items ++ spools.items }
    ensures room { vec_capacity home.new ≡ vec_capacity home.old }
{
    for spool in spools {
        home.push_reserved(spool);
    }
}

/// Waits for each thread, and puts its spools behind those that are there. There is room for them.
pub(crate) fn join_all<S: Spool, T: Loading, R: Threads>(
    rt: &R,
    handles: Vec<PromisedHandle<Vec<S>, ComesBack<S, T>>>,
    home: Vec<S>,
) -> Vec<S>
    requires { vec_len home + length (flat_map (λ handle. handle.promise.seat.value) handles.items) ≤ vec_capacity home }
    ensures all { map S.stake result.items ≡ map S.stake home.items ++ flat_map (λ handle. handle.promise.seat.value) handles.items }
    ensures room { vec_capacity result ≡ vec_capacity home }
{
    let mut home = home;
    for handle in handles {
        put_behind(&mut home, handle.join(rt));
    }
    home
}

/// Puts the spools that a refused thread gave back, and those of the seats that have no thread, behind the others. There is room for them.
pub(crate) fn take_rest<S: Spool, T: Loading>(
    home: Vec<S>,
    spools: Vec<S>,
    seats: Vec<Seat<S, T>>,
) -> Vec<S>
    requires { vec_len home + vec_len spools + length (flat_map (λ seat. seat) seats.items) ≤ vec_capacity home }
    ensures { map S.stake result.items ≡ map S.stake home.items ++ map S.stake spools.items ++ flat_map (λ seat. seat) seats.items }
{
    let mut home = home;
    put_behind(&mut home, spools);
    for seat in seats {
        put_behind(&mut home, seat.into_spools());
    }
    home
}
