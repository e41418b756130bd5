//! Changes of a tree, told by the list of its pairs.
ghost use Rattle.std.specs.Prelude.{◌≡◌, OnOk, OnErr, IfErr};
ghost use Rattle.tree_nodes.specs.Lists.{has, put, without};
ghost use Rattle.tree_nodes.specs.Order.{is_before};

use btree::Tree;
use keybytes::{Fault, Key, Rid};

/// Whether the pair is there.
pub fn has_pair(tree: &Tree, key: &Key, rid: Rid) -> bool
    ensures { result ≡ has is_before (record { key = key.now; rid = rid }) tree.now.pairs }
{
    tree.contains(key, rid)
}

/// Puts a copy of the pair in, unless it is there. An `Err` changes no pair.
pub fn put_copy(tree: &mut Tree, key: &Key, rid: Rid) -> Result<(), Fault>
    ensures ok { OnOk result (tree.new.pairs ≡ put is_before (record { key = key.now; rid = rid }) tree.old.pairs) }
    ensures err { OnErr result (tree.new.pairs ≡ tree.old.pairs) }
    ensures memory { IfErr result (λ fault. fault ≡ Fault.Memory) }
{
    tree.laws();
    if has_pair(tree, key, rid) {
        return Ok(());
    }
    let copy = key.clone()?;
    tree.make_room(key)?;
    tree.insert(copy, rid);
    tree.laws();
    Ok(())
}

/// Takes the pair out, if it is there.
pub fn take_out(tree: &mut Tree, key: &Key, rid: Rid)
    ensures { tree.new.pairs ≡ without is_before (record { key = key.now; rid = rid }) tree.old.pairs }
{
    tree.laws();
    tree.remove(key, rid);
    tree.laws();
}
