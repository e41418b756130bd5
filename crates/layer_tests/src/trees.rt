//! A tree of 1,000 pairs that came in no order, of which every second one goes.

use crate::fixtures::pair;
use btree::Tree;
use keybytes::{Fault, Pair};
use std::alloc::Global;

/// A number for each number below 1,021, none twice, in no order.
fn mixed(number: u32) -> u32 {
    (number % 1_021) * 389 % 1_021
}

fn put(tree: &mut Tree, pair: Pair) -> Result<(), Fault> {
    tree.make_room(&pair.key)?;
    tree.insert(pair.key, pair.rid);
    Ok(())
}

/// Puts in the pairs of the numbers below 1,000, and of some again.
fn fill(alloc: Global, tree: &mut Tree) -> Result<(), Fault> {
    for number in 0..1_100 {
        if mixed(number) < 1_000 {
            put(tree, pair(alloc, mixed(number))?)?;
        }
    }
    Ok(())
}

/// Whether the tree gives the pairs of the numbers from `first` on, each so many behind the one before, in order.
fn gives(alloc: Global, tree: &Tree, first: u32, apart: u32) -> Result<bool, Fault> {
    let mut number = first;
    for given in tree.iter() {
        if *given != pair(alloc, number)? {
            return Ok(false);
        }
        number = number.wrapping_add(apart);
    }
    Ok(true)
}

/// Whether the pair of the number goes.
fn loses(alloc: Global, tree: &mut Tree, number: u32) -> Result<bool, Fault> {
    let gone = pair(alloc, number)?;
    Ok(tree.remove(&gone.key, gone.rid) && !tree.contains(&gone.key, gone.rid))
}

/// Whether each pair of an even number goes, and the others stay.
fn loses_even(alloc: Global, tree: &mut Tree) -> Result<bool, Fault> {
    for number in 0..500 {
        if !loses(alloc, tree, 2 * number)? {
            return Ok(false);
        }
    }
    Ok(tree.len() == 500 && gives(alloc, tree, 1, 2)?)
}

fn grows(alloc: Global, tree: &mut Tree) -> Result<bool, Fault> {
    fill(alloc, tree)?;
    if tree.len() != 1_000 || !gives(alloc, tree, 0, 1)? {
        return Ok(false);
    }
    loses_even(alloc, tree)
}

pub fn tree_answers(alloc: Global) -> Result<bool, Fault> {
    grows(alloc, &mut Tree::new(alloc))
}
