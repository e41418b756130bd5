//! What the indexes of a build got once a switch has decided.

ghost use Rattle.keybytes.specs.Keys.{IsKeyOf};
ghost use Rattle.keybytes.specs.Pairs.{HaveKeysOf};

use crate::failure::Failure;
use crate::timeline_svg::{Gain, GainKind};
use crate::words::{key_at, push_cells};
use btree::Tree;
use builder_core::{Core, TableRings};
use keybytes::{KeySpec, Pair};
use prefix_spool::SpoolOfKind;
use replay::SharedLine;
use std::alloc::Global;
use std::fmt::Write;

/// The most pairs of an index that are shown.
const PAIRS_MAX: usize = 40;

/// An index that became ready under that number, with its pairs.
pub fn ready<T: TableRings>(
    alloc: Global,
    core: &Core<SpoolOfKind, T>,
    row: usize,
    index: usize,
    number: usize,
) -> Result<Gain, Failure> {
    let ready = core.ready(number)?;
    let pairs = ready.tree().len();
    let mut lines = Vec::new(alloc);
    add_pairs(alloc, ready.spec(), ready.tree(), &mut lines)?;
    if pairs > PAIRS_MAX {
        let more = pairs - PAIRS_MAX;
        lines.push(format!(in alloc; "\u{2026} and {more} more")?)?;
    }
    Ok(Gain {
        row,
        kind: GainKind::Ready,
        title: format!(in alloc; "index {index} is ready {number}, pairs: {pairs}")?,
        lines,
    })
}

/// Adds a line for each of the first pairs of a tree.
fn add_pairs(
    alloc: Global,
    spec: &KeySpec,
    tree: &Tree,
    lines: &mut Vec<String>,
) -> Result<(), Failure>
    requires { HaveKeysOf spec.now tree.now.pairs }
{
    for pair in tree.iter() {
        if lines.len() >= PAIRS_MAX {
            break;
        }
        lines.push(pair_line(alloc, spec, pair)?)?;
    }
    Ok(())
}

fn pair_line(alloc: Global, spec: &KeySpec, pair: &Pair) -> Result<String, Failure>
    requires { IsKeyOf spec.now pair.now.key }
{
    let cells = spec.cells(&pair.key)?;
    key_at(alloc, cells.as_slice(), pair.rid)
}

/// An index that was refused, with the key that two rows share.
pub fn shared(
    alloc: Global,
    row: usize,
    index: usize,
    shared: &[SharedLine],
) -> Result<Gain, Failure> {
    let mut lines = Vec::new(alloc);
    for line in shared {
        if line.index == index {
            lines.push(shared_key(alloc, line)?)?;
        }
    }
    Ok(Gain {
        row,
        kind: GainKind::Shared,
        title: format!(in alloc; "index {index} is refused")?,
        lines,
    })
}

fn shared_key(alloc: Global, line: &SharedLine) -> Result<String, Failure> {
    let mut words = String::new(alloc);
    push_cells(&mut words, line.cells.as_slice())?;
    let (first, second) = (line.first, line.second);
    write!(words, " at {first} and {second}")?;
    Ok(words)
}
