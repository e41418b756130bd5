use keybytes::{Fault, Pair};
use std::vec::IntoIter;
use tree_nodes::Leaf;

/// Pairs that come one by one.
pub trait Source {
    ghost use Rattle.std.specs.Prelude.{◌≡◌, List, [], ◌∷◌, IfOk, IfErr, OnErr, MatchOption};
    ghost use Rattle.keybytes.specs.declared.pair.Pair.{Pair};

    /// The pairs that are left.
    ghost left: { Self → List Pair };

    ghost Kept: { Type 0 };

    /// What stays as it is whatever is taken.
    ghost kept: { Self → Kept };

    /// The next pair, or none where none is left.
    fn next(&mut self) -> Result<Option<Pair>, Fault>
        ensures first { IfOk result (λ next. MatchOption next ((left self.old ≡ []) × (left self.new ≡ [])) (λ pair. left self.old ≡ pair ∷ left self.new)) }
        ensures refused { OnErr result (left self.new ≡ left self.old) }
        ensures kept { kept self.new ≡ kept self.old }
        ensures memory { IfErr result (λ fault. fault ≡ Fault.Memory) };

    /// An empty leaf that it has at hand for the tree, if any. Where other threads put the pairs in order, they make leaves too, since the first use of
    /// memory takes as long as putting its pairs there.
    fn leaf(&mut self) -> Option<Leaf>
        ensures left { left self.new ≡ left self.old }
        ensures kept { kept self.new ≡ kept self.old }
    {
        None
    }
}

impl Source for IntoIter<Pair> {
    ghost use Rattle.std.specs.Prelude.{◌≡◌, [], ◌∷◌, IfOk, IfErr, IsOk, OnErr, MatchOption};
    ghost use Rattle.std.specs.Vec.Iter.{into_iter_items};

    ghost left = { into_iter_items };

    ghost Kept = { Unit {0} };

    ghost kept = { λ _. tt };

    /// Takes no memory.
    fn next(&mut self) -> Result<Option<Pair>, Fault>
        ensures first { IfOk result (λ next.
            MatchOption next ((into_iter_items self.old ≡ []) × (into_iter_items self.new ≡ []))
            (λ pair. into_iter_items self.old ≡ pair ∷ into_iter_items self.new)) }
        ensures refused { OnErr result (into_iter_items self.new ≡ into_iter_items self.old) }
        ensures memory { IfErr result (λ fault. fault ≡ Fault.Memory) }
        ensures sure { IsOk result }
    {
        Ok(Iterator::next(self))
    }
}
