//! Whether ready indexes have the pairs of the rows.
ghost use Rattle.std.specs.Prelude.{◌≡◌, ◌<◌, ◌≤◌, [], IfErr, IfOk, length, true, false, vec_capacity};
ghost use Rattle.race.specs.Resting.{AreChecked, SaysSame};

use crate::check_line::CheckLine;
use btree::Tree;
use builder_core::{INDEXES_MAX, Live, TableRings};
use keybytes::{Fault, Pair};

/// A line for each ready index, of which a build has eight at most. There is room for them.
pub fn check_all<T: TableRings>(live: &mut Live<T>, lines: &mut Vec<CheckLine>)
    requires none { lines.old.items ≡ [] }
    requires room { 8 ≤ vec_capacity lines.old }
    ensures { AreChecked (length live.old.state.ready) lines.new.items }
{
    for number in 0..live.ready().len().min(INDEXES_MAX) {
        lines.push_reserved(check(live, number));
    }
}

fn check<T: TableRings>(live: &mut Live<T>, number: usize) -> CheckLine
    requires { number < length live.old.state.ready }
    ensures same { SaysSame result }
    ensures ready { live.new.state.ready ≡ live.old.state.ready }
{
    match is_same(live, number) {
        Ok(true) => CheckLine::Same,
        Ok(false) => CheckLine::Differs,
        Err(fault) => CheckLine::Refused(fault),
    }
}

/// Whether the ready index of that number has the pairs that a build at rest gives. It is of the table's columns, so that only want of memory hides it.
fn is_same<T: TableRings>(live: &mut Live<T>, number: usize) -> Result<bool, Fault>
    requires { number < length live.old.state.ready }
    ensures same { IfOk result (λ same. same ≡ true) }
    ensures memory { IfErr result (λ fault. fault ≡ Fault.Memory) }
    ensures ready { live.new.state.ready ≡ live.old.state.ready }
{
    let Some(index) = live.ready().get(number) else {
        unreachable!()
    };
    let spec = index.spec().clone()?;
    let pairs = live.rest(&spec)?;
    let Some(index) = live.ready().get(number) else {
        unreachable!()
    };
    Ok(has_pairs(index.tree(), pairs.as_slice()))
}

/// Whether these are the pairs of the tree, in order.
fn has_pairs(tree: &Tree, pairs: &[Pair]) -> bool
    ensures yes { result ≡ true → tree.now.pairs ≡ pairs.now }
    ensures no { result ≡ false → ¬ (tree.now.pairs ≡ pairs.now) }
{
    let mut left = pairs;
    for pair in tree.iter() {
        let Some((first, rest)) = left.split_first() else {
            return false;
        };
        if !is_same_pair(first, pair) {
            return false;
        }
        left = rest;
    }
    left.is_empty()
}

fn is_same_pair(one: &Pair, other: &Pair) -> bool
    ensures yes { result ≡ true → one.now ≡ other.now }
    ensures no { result ≡ false → ¬ (one.now ≡ other.now) }
{
    one.rid.page == other.rid.page
        && one.rid.slot == other.rid.slot
        && one.key.bytes() == other.key.bytes()
}
