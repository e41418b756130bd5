ghost use Rattle.std.specs.Prelude.{◌≡◌, length, IfOk, IfErr};
ghost use Rattle.btree.specs.TreeValue.{AreFilled, AreFilledAbove};
ghost use Rattle.keybytes.specs.Pairs.{AreOrdered};

use crate::Source;
use btree::{Loader, Tree};
use keybytes::Fault;
use std::alloc::Global;

/// The tree of pairs that come in order, none twice, with its leaves and the levels above them filled from left to right. After
/// an `Err` the pairs that were taken are lost.
pub fn load<S: Source>(alloc: Global, source: &mut S) -> Result<Tree, Fault>
    requires { AreOrdered (S.left source.old) }
    ensures pairs { IfOk result (λ tree. tree.pairs ≡ S.left source.old) }
    ensures filled { IfOk result (λ tree. AreFilled tree.leaves) }
    ensures levels { IfOk result (λ tree. AreFilledAbove (length tree.leaves) tree.levels) }
    ensures kept { S.kept source.new ≡ S.kept source.old }
    ensures memory { IfErr result (λ fault. fault ≡ Fault.Memory) }
{
    let mut loader = Loader::new(alloc)?;
    while let Some(pair) = source.next()? {
        stock(&mut loader, source);
        loader.push(pair)?;
    }
    loader.finish()
}

/// Hands an empty leaf of the source's on, where the tree's next pair begins one.
#[inline]
fn stock<S: Source>(loader: &mut Loader, source: &mut S)
    ensures loader { loader.new ≡ loader.old }
    ensures left { S.left source.new ≡ S.left source.old }
    ensures kept { S.kept source.new ≡ S.kept source.old }
{
    if loader.wants_leaf() {
        loader.stock(source.leaf());
    }
}
