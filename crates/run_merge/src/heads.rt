ghost use Rattle.std.specs.Prelude.{◌≡◌, ◌<◌, ◌≤◌, ◌+◌, ◌-◌, ◌*◌, ◌^◌, ℕ, None, IfOk, IfErr, MatchOption, length, get_or, set};
ghost use Rattle.run_merge.specs.Leading.{AllDone, NoneDone, IsFirst};

use crate::head::Head;
use crate::losers::{losers_of, replay};
use crate::tournament::{leaves, play_all};
use keybytes::{Fault, Pair};
use std::alloc::Global;
use std::marker::Model;
use std::mem;

/// The heads of some runs in order, each a pair or none where the run has no pair left, and how many comparisons of two pairs
/// were made so far.
#[derive(Drop)]
pub struct Heads {
    heads: Vec<Head>,
    nodes: Vec<usize>,
    compares: u64,
}

impl Model for Heads {
    ghost use Rattle.std.specs.Prelude.{get_or};
    ghost use Rattle.run_merge.specs.Leading.{HeadsValue};
    ghost use Rattle.run_merge.specs.Losers.{IsLost};

    ghost Value = { HeadsValue };

    ghost view = { λ h. record { heads = h.heads.items; first = get_or h.nodes.items 0 0; compares = h.compares } };

    ghost invariant = { λ h. IsLost h.heads.items h.nodes.items };
}

impl Heads {
    /// Takes the heads, with one comparison fewer than there are heads where each is a pair, and with no more where some are none.
    pub fn new(alloc: Global, heads: Vec<Head>) -> Result<Heads, Fault>
        ensures heads { IfOk result (λ new. new.heads ≡ heads.items) }
        ensures compares { IfOk result (λ new. new.compares ≤ length heads.items - 1) }
        ensures counted { IfOk result (λ new. NoneDone heads.items → new.compares ≡ length heads.items - 1) }
        ensures memory { IfErr result (λ fault. fault ≡ Fault.Memory) }
    {
        let mut wins = leaves(alloc, &heads)?;
        let compares = play_all(&mut wins, &heads);
        let nodes = losers_of(alloc, &heads, &wins)?;
        Ok(Heads {
            heads,
            nodes,
            compares,
        })
    }

    /// The place of the head that is given first, or none where no run has a pair left.
    #[inline]
    pub fn first(&self) -> Option<usize>
        ensures { MatchOption result (AllDone self.now.heads) (IsFirst self.now) }
    {
        if self.heads.is_empty() {
            return None;
        }
        let first = self.nodes[0];
        if self.heads[first].pair().is_none() {
            return None;
        }
        Some(first)
    }

    /// Puts the next head of its run in place of the first one, with at most as many comparisons as the tree has levels, and one
    /// fewer at least where each run has a pair.
    #[inline]
    pub fn put(&mut self, head: Option<Pair>) -> Option<Pair>
        requires { 0 < length self.old.heads }
        ensures heads { self.new.heads ≡ set self.old.heads self.old.first head }
        ensures given { result ≡ get_or self.old.heads self.old.first None }
        ensures compares { (d : ℕ) → length self.old.heads ≤ 2 ^ d → self.new.compares ≤ self.old.compares + d }
        ensures grows { self.old.compares ≤ self.new.compares }
        ensures counted { NoneDone self.new.heads → self.new.compares < u64.MAX
            → length self.new.heads < 2 * 2 ^ (self.new.compares - self.old.compares) }
    {
        let first = self.nodes[0];
        let next = Head::new(head);
        let given = mem::replace(&mut self.heads[first], next);
        let compares = replay(&mut self.nodes, &self.heads, first);
        self.compares = self.compares.saturating_add(compares);
        given.into_pair()
    }

    /// How many comparisons of two pairs were made so far; it stays at the greatest number.
    pub fn compares(&self) -> u64
        ensures { result ≡ self.now.compares }
    {
        self.compares
    }
}
