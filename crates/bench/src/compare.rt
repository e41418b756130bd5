//! Each index has to have the pairs that the table gives.

use crate::failure::Failure;
use crate::figures::Figures;
use btree::Tree;
use builder_core::{Live, Pair, TableRings};
use keybytes::Fault;

/// What was measured, unless an index isn't what the table gives.
pub fn compared<T: TableRings>(
    live: &mut Live<T>,
    told: Result<Figures, Failure>,
) -> Result<Figures, Failure> {
    let figures = told?;
    for index in 0..live.ready().len() {
        match first_difference(live, index) {
            Ok(None) => {}
            Ok(Some(place)) => return Err(Failure::Differs(index, place)),
            Err(fault) => return Err(Failure::Refused("the pairs at rest", fault)),
        }
    }
    Ok(figures)
}

/// The place of the first pair of an index that the table doesn't have there.
fn first_difference<T: TableRings>(
    live: &mut Live<T>,
    index: usize,
) -> Result<Option<usize>, Fault> {
    let spec = match live.ready().get(index) {
        Some(index) => index.spec().clone()?,
        None => return Err(Fault::BadCount),
    };
    if !spec.is_of(live.heap().schema()) {
        return Err(Fault::BadColumn);
    }
    let rest = live.rest(&spec)?;
    match live.ready().get(index) {
        Some(index) => Ok(first_other(index.tree(), rest.as_slice())),
        None => Err(Fault::BadCount),
    }
}

/// The place of the first pair that the list doesn't have there, if they differ.
fn first_other(tree: &Tree, others: &[Pair]) -> Option<usize> {
    let mut pairs = tree.iter();
    for (place, other) in others.iter().enumerate() {
        if pairs.next() != Some(other) {
            return Some(place);
        }
    }
    match pairs.next() {
        None => None,
        Some(_) => Some(others.len()),
    }
}
