ghost use Rattle.std.specs.Prelude.{◌≡◌, ◌≤◌, [], vec_len, vec_capacity, IfOk, IfErr};
ghost use Rattle.rtrb.specs.Ring.{received, sent};

use crate::batch::Batch;
use crate::loading::Loading;
use crate::stock::LEAVES;
use crossbeam_utils::sync::{Parker, Unparker};
use keybytes::{Fault, Pair};
use rtrb::{Consumer, Producer, RingBuffer};
use run_spool::Spool;
use std::alloc::Global;
use std::collections::VecDeque;
use tree_nodes::Leaf;

/// How many batches a ring has room for.
const BATCHES: usize = 16;

/// How many pairs a batch has room for.
const PAIRS: usize = 256;

/// What a seat and its stream need: the two rings between them, all batches that these ever carry, empty, of which one is with the stream,
/// what wakes the seat's thread, and room for the seat's spool.
#[derive(Drop)]
pub(crate) struct Rings<S: Spool, T: Loading> {
    pub(crate) filled: Producer<Batch<T>>,
    pub(crate) full: Consumer<Batch<T>>,
    pub(crate) spare: Producer<VecDeque<Pair>>,
    pub(crate) empty: Consumer<VecDeque<Pair>>,
    pub(crate) first: VecDeque<Pair>,
    pub(crate) waiting: Parker,
    pub(crate) sender: Unparker,
    pub(crate) spool: Vec<S>,
    pub(crate) leaves: Producer<Leaf>,
    ghost new: { (sent filled ≡ []) × (received full ≡ []) × (first.items ≡ []) × (spool.items ≡ []) × (1 ≤ vec_capacity spool) },
}

/// Puts empty batches into a ring.
fn stock(alloc: Global, spare: &mut Producer<VecDeque<Pair>>) -> Result<(), Fault>
    ensures memory { IfErr result (λ fault. fault ≡ Fault.Memory) }
{
    for _ in 0..BATCHES {
        let batch = VecDeque::with_capacity(alloc, PAIRS)?;
        if !spare.is_full() {
            spare.push_reserved(batch);
        }
    }
    Ok(())
}

fn new_rings<S: Spool, T: Loading>(
    alloc: Global,
    leaves: Producer<Leaf>,
) -> Result<Rings<S, T>, Fault>
    ensures memory { IfErr result (λ fault. fault ≡ Fault.Memory) }
{
    let (filled, full) = RingBuffer::new(alloc, BATCHES)?;
    let (mut spare, empty) = RingBuffer::new(alloc, BATCHES)?;
    stock(alloc, &mut spare)?;
    let waiting = Parker::new(alloc)?;
    let sender = waiting.unparker().clone()?;
    Ok(Rings {
        filled,
        full,
        spare,
        empty,
        first: VecDeque::with_capacity(alloc, PAIRS)?,
        waiting,
        sender,
        spool: Vec::with_capacity(alloc, 1)?,
        leaves,
    })
}

/// So many pairs of rings, and behind those that are there the ends that take of as many rings of empty leaves.
pub(crate) fn all_rings<S: Spool, T: Loading>(
    alloc: Global,
    count: usize,
    stocks: &mut Vec<Consumer<Leaf>>,
) -> Result<Vec<Rings<S, T>>, Fault>
    ensures many { IfOk result (λ rings. vec_len rings ≡ count) }
    ensures memory { IfErr result (λ fault. fault ≡ Fault.Memory) }
{
    let mut rings = Vec::with_capacity(alloc, count)?;
    for _ in 0..count {
        let (leaves, stock) = RingBuffer::new(alloc, LEAVES)?;
        stocks.push(stock)?;
        rings.push_reserved(new_rings(alloc, leaves)?);
    }
    Ok(rings)
}
