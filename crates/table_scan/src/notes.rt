//! A change of a row, noted for each index of the running build: its entries go to the side-files.
ghost use Rattle.std.specs.Prelude.{◌≡◌, ◌++◌, ◌<◌, ◌≤◌, length, map, slice_get, Some, None, ℕ, IfSome, IfOk, IfErr, IsOk, OnOk, OnErr};
ghost use Rattle.visibility.specs.SideEntries.{entries_of_change};
ghost use Rattle.side_file.specs.Entries.{entry_of};
ghost use Rattle.side_file.specs.SideFileValue.{SideFileValue};
ghost use Rattle.table_scan.specs.Noting.{FitsBuild, IsChangeOf, AreChangesOf, HaveAppended, HaveNoted, OthersStay, sides_used, without_room};
ghost use Rattle.table_scan.specs.SideFiles.{put_ends};

use crate::table_scan::TableScan;
use heap_table::Ready;
use keybytes::{Fault, Rid};
use ready_indexes::key_there;
use side_file::{Entry, Op, SideFile};
use std::alloc::Global;
use visibility::{Change, entries};

/// What a change means for one of the build's indexes, as far as the build has scanned by now.
fn change_of(build: &TableScan, index: usize, ready: &Ready) -> Result<Change, Fault>
    requires there { index < length build.now.specs }
    requires fits { FitsBuild ready.now build.now }
    ensures ok { IfOk result (λ change. IsChangeOf build.now index ready.now change) }
    ensures memory { IfErr result (λ fault. fault ≡ Fault.Memory) }
{
    let spec = build.spec(index);
    Ok(entries(
        key_there(spec, &ready.old)?,
        key_there(spec, &ready.new)?,
        build.sees(ready.rid),
    ))
}

/// What a change means for each of the build's indexes.
fn changes_of(alloc: Global, build: &TableScan, ready: &Ready) -> Result<Vec<Change>, Fault>
    requires fits { FitsBuild ready.now build.now }
    ensures many { IfOk result (λ changes. length changes.items ≡ length build.now.specs) }
    ensures ok { IfOk result (λ changes. AreChangesOf build.now ready.now changes.items) }
    ensures memory { IfErr result (λ fault. fault ≡ Fault.Memory) }
{
    let count = build.indexes();
    let mut changes = Vec::with_capacity(alloc, count)?;
    for index in 0..count {
        changes.push_reserved(change_of(build, index, ready)?);
    }
    Ok(changes)
}

/// Makes room for the entries of a change in each of so many side-files.
fn reserve_each(sides: &mut Vec<SideFile>, count: usize) -> Result<(), Fault>
    requires { count ≤ length sides.old.items }
    ensures room { OnOk result ((k : ℕ) (side : SideFileValue) → k < count → slice_get sides.new.items k ≡ Some side → 2 ≤ side.room) }
    ensures same { map without_room sides.new.items ≡ map without_room sides.old.items }
    ensures memory { IfErr result (λ fault. fault ≡ Fault.Memory) }
{
    for k in 0..count {
        sides[k].reserve(2)?;
    }
    Ok(())
}

/// Appends the entries of each change to the side-file of its index.
fn append_each(sides: &mut Vec<SideFile>, build: u64, rid: Rid, changes: Vec<Change>)
    requires many { length changes.items ≤ length sides.old.items }
    requires room { (k : ℕ) (side : SideFileValue) → k < length changes.items → slice_get sides.old.items k ≡ Some side → 2 ≤ side.room }
    ensures appended { HaveAppended build rid changes.items sides.old.items sides.new.items }
    ensures ends { put_ends sides.new.items ≡ put_ends sides.old.items }
{
    let mut k = 0;
    for change in changes {
        append(&mut sides[k], build, rid, change);
        k += 1;
    }
}

/// Appends the entries of a change: its delete, then its insert.
fn append(side: &mut SideFile, build: u64, rid: Rid, change: Change)
    requires { 2 ≤ side.old.room }
    ensures left { side.new.left ≡ side.old.left ++ map (entry_of build) (entries_of_change rid change) }
    ensures fed { side.new.fed ≡ side.old.fed }
    ensures end { side.new.end ≡ side.old.end }
{
    let Change { delete, insert } = change;
    if let Some(key) = delete {
        side.append(Entry {
            build,
            op: Op::Delete,
            key,
            rid,
        });
    }
    if let Some(key) = insert {
        side.append(Entry {
            build,
            op: Op::Insert,
            key,
            rid,
        });
    }
}

/// Makes the entries of a change for each index of the build, and appends them. Where there is no memory nothing changes but the room, and where
/// no build runs there is nothing to note.
pub fn note(
    alloc: Global,
    sides: &mut Vec<SideFile>,
    build: &Option<TableScan>,
    ready: &Ready,
) -> Result<(), Fault>
    requires fits { IfSome build.now (FitsBuild ready.now) }
    requires many { IfSome build.now (λ b. length b.specs ≤ length sides.old.items) }
    ensures noted { OnOk result (IfSome build.now (λ b. HaveNoted b ready.now sides.old.items sides.new.items)) }
    ensures others { OnOk result (OthersStay (sides_used build.now) sides.old.items sides.new.items) }
    ensures unchanged { OnErr result (map without_room sides.new.items ≡ map without_room sides.old.items) }
    ensures ends { put_ends sides.new.items ≡ put_ends sides.old.items }
    ensures idle { build.now ≡ None → IsOk result × (sides.new.items ≡ sides.old.items) }
    ensures memory { IfErr result (λ fault. fault ≡ Fault.Memory) }
{
    let Some(build) = build else {
        return Ok(());
    };
    let changes = changes_of(alloc, build, ready)?;
    reserve_each(sides, changes.len())?;
    append_each(sides, build.number(), ready.rid, changes);
    Ok(())
}
