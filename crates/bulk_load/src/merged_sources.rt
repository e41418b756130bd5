ghost use Rattle.std.specs.Prelude.{◌≡◌, All, map, IfOk, IfErr};
ghost use Rattle.keybytes.specs.Pairs.{AreOrdered};
ghost use Rattle.run_spool.specs.Spools.{all_pairs};
ghost use Rattle.bulk_load.specs.Each.{AreEachOnce};
ghost use Rattle.bulk_load.specs.Headed.{AreHeadsOf, with_heads};

use crate::Source;
use keybytes::{Fault, Pair};
use rtrb::Consumer;
use run_merge::{Head, Heads};
use std::alloc::Global;
use std::marker::Model;
use tree_nodes::Leaf;

/// Sources whose pairs are merged, and rings of empty leaves, which give them by turns. Contracts see, source by source, the pairs that are left.
#[derive(Drop)]
pub(crate) struct MergedSources<X: Source + Drop> {
    sources: Vec<X>,
    heads: Heads,
    stocks: Vec<Consumer<Leaf>>,
    turn: usize,
}

impl<X: Source + Drop> Model for MergedSources<X> {
    ghost use Rattle.std.specs.Prelude.{List, map};
    ghost use Rattle.keybytes.specs.declared.pair.Pair.{Pair};
    ghost use Rattle.bulk_load.specs.Headed.{AreHeadsOf, with_heads};

    ghost Value = { List (List Pair) };

    ghost view = { λ merged. with_heads merged.heads.heads (map X.left merged.sources.items) };

    ghost invariant = { λ merged. AreHeadsOf merged.heads.heads (map X.left merged.sources.items) };
}

impl<X: Source + Drop> Source for MergedSources<X> {
    ghost use Rattle.bulk_load.specs.Each.{in_order};

    ghost left = { λ merged. in_order merged };

    ghost Kept = { Unit {0} };

    ghost kept = { λ _. tt };

    fn next(&mut self) -> Result<Option<Pair>, Fault> {
        let Some(place) = self.heads.first() else {
            return Ok(None);
        };
        let next = self.sources[place].next()?;
        Ok(self.heads.put(next))
    }

    fn leaf(&mut self) -> Option<Leaf>
        ensures { self.new ≡ self.old }
    {
        let stocks = self.stocks.len();
        if stocks == 0 {
            return None;
        }
        self.turn = (self.turn % stocks) + 1;
        self.stocks[self.turn - 1].pop().ok()
    }
}

/// Takes the head of each source.
fn take_heads<X: Source + Drop>(alloc: Global, sources: &mut Vec<X>) -> Result<Heads, Fault>
    requires sorted { All AreOrdered (map X.left sources.old.items) }
    requires once { AreEachOnce (all_pairs (map X.left sources.old.items)) }
    ensures heads { IfOk result (λ heads. AreHeadsOf heads.heads (map X.left sources.new.items)) }
    ensures all { IfOk result (λ heads. with_heads heads.heads (map X.left sources.new.items) ≡ map X.left sources.old.items) }
    ensures memory { IfErr result (λ fault. fault ≡ Fault.Memory) }
{
    let mut heads = Vec::with_capacity(alloc, sources.len())?;
    for place in 0..sources.len() {
        heads.push_reserved(Head::new(sources[place].next()?));
    }
    Heads::new(alloc, heads)
}

impl<X: Source + Drop> MergedSources<X> {
    /// The merge of the sources, each of which is in order.
    pub(crate) fn new(
        alloc: Global,
        mut sources: Vec<X>,
        stocks: Vec<Consumer<Leaf>>,
    ) -> Result<MergedSources<X>, Fault>
        requires sorted { All AreOrdered (map X.left sources.items) }
        requires once { AreEachOnce (all_pairs (map X.left sources.items)) }
        ensures all { IfOk result (λ merged. merged ≡ map X.left sources.items) }
        ensures memory { IfErr result (λ fault. fault ≡ Fault.Memory) }
    {
        let heads = take_heads(alloc, &mut sources)?;
        Ok(MergedSources {
            sources,
            heads,
            stocks,
            turn: 0,
        })
    }
}
