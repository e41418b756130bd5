ghost use Rattle.std.specs.Prelude.{◌≡◌, ◌+◌, ◌^◌, ◌<◌, ◌⊎◌, ◌++◌, [], List, length, IfOk, IfErr, IfSome, IsSomeAnd, OnOk};
ghost use Rattle.build_events.specs.BuildSteps.{OnBuild};
ghost use Rattle.build_events.specs.Verdicts.{HaveSharedKeys};
ghost use Rattle.replay.specs.declared.shared_line.SharedLine.{SharedLine};
ghost use Rattle.std.specs.List.{AllZip};
ghost use Rattle.keybytes.specs.Pairs.{HaveKeysOf};
ghost use Rattle.std.specs.List.{All};
ghost use Rattle.chunk_list.specs.Left.{queue_items_left};
ghost use Rattle.keybytes.specs.Keys.{IsKeyOf};
ghost use Rattle.replay.specs.Listings.{ListsPair, ListsEntry, ListsShared};

use crate::entry_line::EntryLine;
use crate::pair_line::PairLine;
use crate::shared_line::SharedLine;
use btree::Tree;
use builder_core::{Core, Entry, Pair, TableRings};
use chunk_list::QueueItems;
use heap_log::{Outcome, Verdicts};
use keybytes::{Fault, KeySpec, copied_specs};
use prefix_spool::SpoolOfKind;
use std::alloc::Global;

/// The pairs of an index as they are printed.
pub fn pair_lines(alloc: Global, spec: &KeySpec, pairs: &[Pair]) -> Result<Vec<PairLine>, Fault>
    requires { HaveKeysOf spec.now pairs.now }
    ensures lists { IfOk result (λ lines. AllZip (ListsPair spec.now) pairs.now lines.items) }
    ensures memory { IfErr result (λ fault. fault ≡ Fault.Memory) }
{
    let mut lines = Vec::with_capacity(alloc, pairs.len())?;
    for pair in pairs {
        lines.push(pair_line(spec, pair)?)?;
    }
    Ok(lines)
}

/// The pairs of a tree as they are printed.
pub fn tree_lines(alloc: Global, spec: &KeySpec, tree: &Tree) -> Result<Vec<PairLine>, Fault>
    requires { HaveKeysOf spec.now tree.now.pairs }
    ensures lists { IfOk result (λ lines. AllZip (ListsPair spec.now) tree.now.pairs lines.items) }
    ensures memory { IfErr result (λ fault. fault ≡ Fault.Memory) }
{
    let mut lines = Vec::with_capacity(alloc, tree.len())?;
    for pair in tree.iter() {
        lines.push(pair_line(spec, pair)?)?;
    }
    Ok(lines)
}

fn pair_line(spec: &KeySpec, pair: &Pair) -> Result<PairLine, Fault>
    requires { IsKeyOf spec.now pair.now.key }
    ensures lists { IfOk result (λ line. ListsPair spec.now pair.now line) }
    ensures memory { IfErr result (λ fault. fault ≡ Fault.Memory) }
{
    let cells = spec.cells(&pair.key)?;
    Ok(PairLine {
        cells,
        rid: pair.rid,
    })
}

/// The entries of a side-file as they are printed.
pub fn entry_lines(
    alloc: Global,
    spec: &KeySpec,
    entries: QueueItems<'_, Entry>,
) -> Result<Vec<EntryLine>, Fault>
    requires { All (λ entry. IsKeyOf spec.now entry.key) (queue_items_left entries) }
    ensures lists { IfOk result (λ lines. AllZip (ListsEntry spec.now) (queue_items_left entries.entry) lines.items) }
    ensures memory { IfErr result (λ fault. fault ≡ Fault.Memory) }
{
    let mut lines = Vec::new(alloc);
    for entry in entries {
        let cells = spec.cells(&entry.key)?;
        lines.push(EntryLine {
            op: entry.op,
            cells,
            rid: entry.rid,
        })?;
    }
    Ok(lines)
}

/// Lines that tell of the indexes that the verdicts refuse; none where there is no memory for them, since the switch has decided by then.
pub fn shared_lines(alloc: Global, specs: &[KeySpec], verdicts: &[Outcome]) -> Vec<SharedLine>
    requires keys { HaveSharedKeys specs.now verdicts.now }
    ensures lists { ListsShared 0 specs.now verdicts.now result.items ⊎ (result.items ≡ []) }
{
    let mut lines = Vec::new(alloc);
    match add_shared(&mut lines, 0, specs, verdicts) {
        Ok(()) => lines,
        Err(_) => Vec::new(alloc),
    }
}

/// Puts such lines behind those that are there, where the first verdict is on the index of that number.
fn add_shared(
    lines: &mut Vec<SharedLine>,
    number: usize,
    specs: &[KeySpec],
    verdicts: &[Outcome],
) -> Result<(), Fault>
    requires keys { HaveSharedKeys specs.now verdicts.now }
    requires few { number + length specs.now < 2 ^ 64 }
    ensures lists { OnOk result ((told : List SharedLine) × (lines.new.items ≡ lines.old.items ++ told) × ListsShared number specs.now verdicts.now told) }
    ensures memory { IfErr result (λ fault. fault ≡ Fault.Memory) }
{
    let (Some((spec, specs)), Some((verdict, verdicts))) = (
        specs.split_first(),
        verdicts.split_first(),
    ) else {
        return Ok(());
    };
    if let Outcome::Shared { key, first, second } = verdict {
        lines.push(SharedLine {
            index: number,
            cells: spec.cells(key)?,
            first: *first,
            second: *second,
        })?;
    }
    add_shared(lines, number + 1, specs, verdicts)
}

/// Copies of what makes the keys of the indexes that are being built, if a build runs and there is memory for them.
pub fn build_specs<T: TableRings>(
    alloc: Global,
    core: &Core<SpoolOfKind, T>,
) -> Option<Vec<KeySpec>>
    ensures { IfSome result (λ specs. OnBuild core.now.live.build (λ b. specs.items ≡ b.specs)) }
{
    let specs = core.live().specs()?;
    copied_specs(alloc, specs).ok()
}

/// Lines that tell of the indexes that the verdicts refuse, of a build with these specifications; none where these were not copied.
pub fn build_lines(
    alloc: Global,
    specs: Option<Vec<KeySpec>>,
    verdicts: &Verdicts,
) -> Vec<SharedLine>
    requires { IfSome specs (λ specs. HaveSharedKeys specs.items verdicts.now) }
    ensures { IsSomeAnd specs (λ specs. ListsShared 0 specs.items verdicts.now result.items) ⊎ (result.items ≡ []) }
{
    match specs {
        Some(specs) => shared_lines(alloc, specs.as_slice(), verdicts.as_slice()),
        None => Vec::new(alloc),
    }
}
