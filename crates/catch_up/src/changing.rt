//! One entry, and the tree that it changes.
ghost use Rattle.std.specs.Prelude.{◌≡◌, ◌≢◌, true, is_some, OnOk, OnErr, IfErr};
ghost use Rattle.keybytes.specs.Pairs.{set_of};
ghost use Rattle.visibility.specs.Applied.{apply_entry};
ghost use Rattle.catch_up.specs.Built.{told, Tallies};

use btree::Tree;
use keybytes::Fault;
use side_file::{Entry, Op};
use unique_verdict::Tally;

/// Makes room for the pair that an entry of that build puts in, if it puts one in.
pub fn make_room(tree: &mut Tree, build: u64, entry: &Entry) -> Result<(), Fault>
    ensures room { OnOk result (entry.now.build ≡ build → entry.now.op ≡ Op.Insert → tree.new.room ≡ true) }
    ensures pairs { tree.new.pairs ≡ tree.old.pairs }
    ensures needed { OnErr result ((entry.now.build ≡ build) × (entry.now.op ≡ Op.Insert)) }
    ensures memory { IfErr result (λ fault. fault ≡ Fault.Memory) }
{
    match entry.op {
        Op::Insert if entry.build == build => tree.make_room(&entry.key),
        _ => Ok(()),
    }
}

/// Tells the tally, if one is kept, of the entry that the tree has next, where that is of this build.
pub fn count(tally: &mut Option<Tally>, tree: &Tree, build: u64, entry: &Entry) -> Result<(), Fault>
    requires { Tallies tally.old (set_of tree.now.pairs) }
    ensures told { OnOk result (entry.now.build ≡ build → Tallies tally.new (apply_entry (told entry.now) (set_of tree.now.pairs))) }
    ensures other { OnOk result (entry.now.build ≢ build → Tallies tally.new (set_of tree.now.pairs)) }
    ensures unchanged { OnErr result (Tallies tally.new (set_of tree.now.pairs)) }
    ensures kept { is_some tally.new ≡ is_some tally.old }
    ensures needed { OnErr result ((entry.now.build ≡ build) × (is_some tally.old ≡ true)) }
    ensures memory { IfErr result (λ fault. fault ≡ Fault.Memory) }
{
    let Some(tally) = tally else {
        return Ok(());
    };
    if entry.build != build {
        return Ok(());
    }
    match entry.op {
        Op::Delete => tally.removed(tree, &entry.key, entry.rid),
        Op::Insert => tally.added(tree, &entry.key, entry.rid),
    }
}

/// Applies an entry, of whatever build.
pub fn change(tree: &mut Tree, entry: Entry)
    requires { entry.op ≡ Op.Insert → tree.old.room ≡ true }
    ensures { set_of tree.new.pairs ≡ apply_entry (told entry) (set_of tree.old.pairs) }
{
    let Entry { op, key, rid, .. } = entry;
    match op {
        Op::Delete => {
            tree.remove(&key, rid);
        }
        Op::Insert => tree.insert(key, rid),
    }
}
