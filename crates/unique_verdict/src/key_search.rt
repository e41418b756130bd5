//! Who has a key.
ghost use Rattle.std.specs.Prelude.{◌≡◌, map, IfOk, IfErr};
ghost use Rattle.btree.specs.Left.{range_left};
ghost use Rattle.btree.specs.TreeValue.{rids_of};
ghost use Rattle.unique_verdict.specs.Holders.{holders};

use crate::key_holders::KeyHolders;
use btree::{Range, Tree};
use keybytes::{Fault, KEY_MAX, Key, Rid};

/// The RIDs that have the key. No key lies between it and the same with a byte 0 behind it, so that these are the ends of a range;
/// behind a key of the greatest length no byte has room, and all its RIDs are listed.
pub fn holders_in(tree: &Tree, key: &Key) -> Result<KeyHolders, Fault>
    ensures holders { IfOk result (λ found. found ≡ holders (rids_of key.now tree.now.pairs)) }
    ensures memory { IfErr result (λ fault. fault ≡ Fault.Memory) }
{
    if key.bytes().len() == KEY_MAX {
        let rids = tree.rids(key)?;
        return Ok(of_rids(rids.as_slice()));
    }
    let mut end = key.clone()?;
    end.add(&[0])?;
    let mut pairs = tree.range(key, &end)?;
    Ok(of_pairs(&mut pairs))
}

/// Those of a list.
fn of_rids(rids: &[Rid]) -> KeyHolders
    ensures { result ≡ holders rids.now }
{
    match rids {
        [] => KeyHolders::None,
        [only] => KeyHolders::One(*only),
        [first, second] => KeyHolders::Two(*first, *second),
        [first, ..] => KeyHolders::More(*first),
    }
}

/// Those of the pairs that are left.
fn of_pairs(pairs: &mut Range<'_>) -> KeyHolders
    ensures { result ≡ holders (map (λ pair. pair.rid) (range_left pairs.old)) }
{
    let Some(first) = pairs.next() else {
        return KeyHolders::None;
    };
    let Some(second) = pairs.next() else {
        return KeyHolders::One(first.rid);
    };
    if pairs.next().is_some() {
        return KeyHolders::More(first.rid);
    }
    KeyHolders::Two(first.rid, second.rid)
}
