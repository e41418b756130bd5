//! Spools that are dealt to threads, and come back.
ghost use Rattle.std.specs.Prelude.{◌≡◌, ◌≤◌, ◌+◌, ◌++◌, ◌∷◌, [], All, length, map, vec_len, vec_capacity, IfOk, IfErr, IsPermutation};
ghost use Rattle.std.specs.List.{flat_map};
ghost use Rattle.keybytes.specs.Pairs.{AreOrdered};
ghost use Rattle.run_merge.specs.Merging.{all_runs};
ghost use Rattle.run_spool.specs.Spools.{AreSorted, all_pairs};
ghost use Rattle.bulk_load.specs.Each.{AreEachOnce, in_order};

use crate::loading::Loading;
use crate::merged_sources::MergedSources;
use crate::rings::{Rings, all_rings};
use crate::seat::Seat;
use crate::stream::Stream;
use crate::threads::{ComesBack, join_all, start, take_rest};
use crate::{Source, load};
use btree::Tree;
use keybytes::Fault;
use rtrb::Consumer;
use run_spool::Spool;
use std::alloc::Global;
use std::marker::Brand;
use std::sync::Wait;
use std::thread;
use std::thread::{PromisedHandle, Threads};
use tree_nodes::Leaf;

/// A seat and a stream for each spool. Takes no memory.
fn deal<'e, S: Spool, T: Loading, R: Wait>(
    rt: &'e R,
    mut spools: Vec<S>,
    mut rings: Vec<Rings<S, T>>,
    mut seats: Vec<Seat<S, T>>,
    mut streams: Vec<Stream<'e, R, T>>,
) -> (Vec<Seat<S, T>>, Vec<Stream<'e, R, T>>)
    requires names { map in_order (map S.runs spools.items) ≡ T.streams }
    requires sorted { All AreSorted (map S.runs spools.items) }
    requires once { All (λ runs. AreEachOnce (all_pairs runs)) (map S.runs spools.items) }
    requires none { (seats.items ≡ []) × (streams.items ≡ []) }
    requires room { (vec_len spools ≤ vec_capacity seats) × (vec_len spools ≤ vec_capacity streams) × (vec_len rings ≡ vec_len spools) }
    ensures streams { map (λ stream. stream.pairs) result.1.items ≡ T.streams }
    ensures stakes { result.0.items ≡ map (λ spool. S.stake spool ∷ []) spools.items }
{
    while !spools.is_empty() {
        let Some(own) = rings.pop() else {
            unreachable!()
        };
        let Rings {
            filled,
            full,
            spare,
            empty,
            first,
            waiting,
            sender,
            mut spool,
            leaves,
        } = own;
        let number = seats.len();
        spool.push_reserved(spools.remove(0));
        seats.push_reserved(Seat::new(number, spool, filled, empty, waiting, leaves));
        streams.push_reserved(Stream::new(rt, number, full, spare, first, sender));
    }
    (seats, streams)
}

/// The tree of all pairs of the sources, which are let go.
fn filled<X: Source + Drop>(
    alloc: Global,
    sources: Vec<X>,
    stocks: Vec<Consumer<Leaf>>,
) -> Result<Tree, Fault>
    requires sorted { All AreOrdered (map X.left sources.items) }
    requires once { AreEachOnce (all_pairs (map X.left sources.items)) }
    ensures all { IfOk result (λ tree. tree.pairs ≡ in_order (map X.left sources.items)) }
    ensures memory { IfErr result (λ fault. fault ≡ Fault.Memory) }
{
    let mut merged = MergedSources::new(alloc, sources, stocks)?;
    load(alloc, &mut merged)
}

/// Each seat merges in a thread of its own, and this thread merges what comes of them, and fills the tree. The spools of all seats come back.
fn load_dealt<'e, S: Spool + Send + 'e, T: Loading + Send + Sync + 'e, R: Threads + Wait + Sync>(
    rt: &'e R,
    alloc: Global,
    seats: Vec<Seat<S, T>>,
    streams: Vec<Stream<'e, R, T>>,
    stocks: Vec<Consumer<Leaf>>,
    handles: Vec<PromisedHandle<Vec<S>, ComesBack<S, T>>>,
    home: Vec<S>,
) -> (Result<Tree, Fault>, Vec<S>)
    requires none { (handles.items ≡ []) × (home.items ≡ []) }
    requires room { (vec_len seats ≤ vec_capacity handles) × (length (flat_map (λ seat. seat) seats.items) ≤ vec_capacity home) }
    requires sorted { All AreOrdered (map (λ stream. stream.pairs) streams.items) }
    requires once { AreEachOnce (all_pairs (map (λ stream. stream.pairs) streams.items)) }
    ensures all { IfOk result.0 (λ tree. tree.pairs ≡ in_order (map (λ stream. stream.pairs) streams.entry.items)) }
    ensures stakes { map S.stake result.1.items ≡ flat_map (λ seat. seat) seats.items }
    ensures memory { IfErr result.0 (λ fault. fault ≡ Fault.Memory) }
{
    thread::scope(
        thread::scope_env(),
        rt,
        move |scope| -> (Result<Tree, Fault>, Vec<S>)
            requires none { (handles.items ≡ []) × (home.items ≡ []) }
            requires room { (vec_len seats ≤ vec_capacity handles) × (length (flat_map (λ seat. seat) seats.items) ≤ vec_capacity home) }
            requires sorted { All AreOrdered (map (λ stream. stream.pairs) streams.items) }
            requires once { AreEachOnce (all_pairs (map (λ stream. stream.pairs) streams.items)) }
            ensures all { IfOk result.0 (λ tree. tree.pairs ≡ in_order (map (λ stream. stream.pairs) streams.entry.items)) }
            ensures stakes { map S.stake result.1.items ≡ flat_map (λ seat. seat) seats.items }
            ensures memory { IfErr result.0 (λ fault. fault ≡ Fault.Memory) }
        {
            let (handles, told) = start(scope, rt, alloc, seats, streams, handles);
            match told {
                Ok(streams) => {
                    let tree = filled(alloc, streams, stocks);
                    (tree, join_all(rt, handles, home))
                }
                Err((spools, rest)) => {
                    let home = join_all(rt, handles, home);
                    (Err(Fault::Memory), take_rest(home, spools, rest))
                }
            }
        },
    )
}

/// All lists that a load of so many spools needs.
struct Rooms<'e, S: Spool, T: Loading, R: Wait> {
    rings: Vec<Rings<S, T>>,
    stocks: Vec<Consumer<Leaf>>,
    seats: Vec<Seat<S, T>>,
    streams: Vec<Stream<'e, R, T>>,
    handles: Vec<PromisedHandle<Vec<S>, ComesBack<S, T>>>,
    home: Vec<S>,
}

fn new_rooms<'e, S: Spool, T: Loading, R: Wait>(
    alloc: Global,
    count: usize,
) -> Result<Rooms<'e, S, T, R>, Fault>
    ensures rings { IfOk result (λ rooms. vec_len rooms.rings ≡ count) }
    ensures none { IfOk result (λ rooms. (rooms.seats.items ≡ []) × (rooms.streams.items ≡ []) × (rooms.handles.items ≡ []) × (rooms.home.items ≡ [])) }
    ensures room { IfOk result (λ rooms. (count ≤ vec_capacity rooms.seats) × (count ≤ vec_capacity rooms.streams)
        × (count ≤ vec_capacity rooms.handles) × (count ≤ vec_capacity rooms.home)) }
    ensures memory { IfErr result (λ fault. fault ≡ Fault.Memory) }
{
    let mut stocks = Vec::with_capacity(alloc, count)?;
    Ok(Rooms {
        rings: all_rings(alloc, count, &mut stocks)?,
        stocks,
        seats: Vec::with_capacity(alloc, count)?,
        streams: Vec::with_capacity(alloc, count)?,
        handles: Vec::with_capacity(alloc, count)?,
        home: Vec::with_capacity(alloc, count)?,
    })
}

/// A load with a name.
fn load_named<S: Spool + Send, T: Loading + Send + Sync, R: Threads + Wait + Sync>(
    rt: &R,
    alloc: Global,
    spools: Vec<S>,
) -> (Result<Tree, Fault>, Vec<S>)
    requires names { map in_order (map S.runs spools.items) ≡ T.streams }
    requires sorted { All AreSorted (map S.runs spools.items) }
    requires once { AreEachOnce (all_pairs (all_runs (map S.runs spools.items))) }
    ensures all { IfOk result.0 (λ tree. IsPermutation (all_pairs (all_runs (map S.runs spools.items))) tree.pairs) }
    ensures stakes { map S.stake result.1.items ≡ map S.stake spools.items }
    ensures memory { IfErr result.0 (λ fault. fault ≡ Fault.Memory) }
{
    let made: Result<Rooms<S, T, R>, Fault> = new_rooms(alloc, spools.len());
    let Rooms {
        rings,
        stocks,
        seats,
        streams,
        handles,
        home,
    } = match made {
        Ok(rooms) => rooms,
        Err(fault) => return (Err(fault), spools),
    };
    let (seats, streams) = deal(rt, spools, rings, seats, streams);
    load_dealt(rt, alloc, seats, streams, stocks, handles, home)
}

/// Makes a tree of the pairs of all closed runs of the spools, which are handed back. A thread for each spool merges its runs, while this one fills the
/// tree. Where a thread can't be started, or finds no memory, the load is refused for want of memory, which may lose some of the pairs.
///
/// `rt` is the runtime that `main` hands in. It waits for the threads.
pub fn tree_in_threads<S: Spool + Send, R: Threads + Wait + Sync>(
    rt: &R,
    alloc: Global,
    spools: Vec<S>,
) -> (Result<Tree, Fault>, Vec<S>)
    requires sorted { All AreSorted (map S.runs spools.items) }
    requires once { AreEachOnce (all_pairs (all_runs (map S.runs spools.items))) }
    ensures all { IfOk result.0 (λ tree. IsPermutation (all_pairs (all_runs (map S.runs spools.items))) tree.pairs) }
    ensures stakes { map S.stake result.1.items ≡ map S.stake spools.items }
    ensures memory { IfErr result.0 (λ fault. fault ≡ Fault.Memory) }
{
    load_named::<S, Brand, R>(rt, alloc, spools)
}
