//! Look-ups in the ready indexes of a table that is kept.
ghost use Rattle.std.specs.Prelude.{◌≡◌, ◌&&◌, None, Some, true, length, nat_le, slice_get, take, IfOk, IfErr, MatchOption, OnOk};
ghost use Rattle.std.specs.Option.{option_map};
ghost use Rattle.keybytes.specs.Cells.{fits};
ghost use Rattle.keybytes.specs.Faults.{RefusedFor, first_cause};
ghost use Rattle.keybytes.specs.Keys.{are_key_columns, key_of};
ghost use Rattle.keybytes.specs.Rows.{shape_refusal};
ghost use Rattle.kept_table.specs.Lookups.{GoesOnWith, IsFirstKey, key_refusal, number_refusal, onward, pair_of};
ghost use Rattle.kept_table.specs.Lookups.{first_columns, keyed_by, spec_refusal};

use crate::Kept;
use crate::kept::taken;
use crate::unnamed_counted::UnnamedCounted;
use btree::Tree;
use builder_core::{Core, Pair, TableRings};
use keybytes::{Fault, Key, KeyCol, KeySpec, Rid, Row, Schema};
use prefix_spool::SpoolOfKind;
use std::alloc::Global;
use std::marker::Brand;
use tree_nodes::is_after;

impl Kept {
    /// How many indexes are ready. Takes no memory.
    pub fn ready(&mut self) -> usize
        ensures ready { result ≡ length self.old.core.live.ready }
        ensures unchanged { self.new ≡ self.old }
    {
        let (table, ready) = ready_of::<Brand>(taken(&mut self.table));
        self.table = Some(table);
        ready
    }

    /// The key that the first so many columns of a ready index have of the row, which it may lack. [`Fault::BadCount`] where there is no such index, or no
    /// or more columns; [`Fault::BadColumn`] of an index of other columns than the table's; [`Fault::RowShape`].
    pub fn key(&mut self, number: usize, columns: usize, row: &Row) -> Result<Key, Fault>
        ensures ok { IfOk result (IsFirstKey self.old.core.live.heap.schema columns (slice_get self.old.core.live.ready number) row.now) }
        ensures accepted { OnOk result (key_refusal self.old.core.live number columns row.now ≡ None) }
        ensures refused { IfErr result (RefusedFor (key_refusal self.old.core.live number columns row.now)) }
        ensures unchanged { self.new ≡ self.old }
    {
        let (table, key) = key_by::<Brand>(taken(&mut self.table), number, columns, row);
        self.table = Some(table);
        key
    }

    /// The first pair of a ready index that isn't before the key and RID; with `past` the first of those that is behind it. So whoever reads a part of the
    /// pairs goes on behind its last one, whatever was put in and taken out meanwhile. [`Fault::BadCount`]. A key of up to 24 bytes takes no memory.
    pub fn next(
        &mut self,
        number: usize,
        key: &Key,
        rid: Rid,
        past: bool,
    ) -> Result<Option<(Key, Rid)>, Fault>
        ensures ok { IfOk result (λ found.
            GoesOnWith past (record { key = key.now; rid = rid }) (slice_get self.old.core.live.ready number) (option_map pair_of found)) }
        ensures refused { IfErr result (RefusedFor (number_refusal (slice_get self.old.core.live.ready number))) }
        ensures unchanged { self.new ≡ self.old }
    {
        let (table, found) = next_of::<Brand>(taken(&mut self.table), number, key, rid, past);
        self.table = Some(table);
        found
    }
}

/// The table under a name, for the number of its ready indexes.
fn ready_of<T: TableRings>(table: UnnamedCounted) -> (UnnamedCounted, usize)
    requires pages { table.pages ≡ T.pages }
    requires sides { table.sides ≡ T.sides }
    ensures ready { result.1 ≡ length table.core.live.ready }
    ensures unchanged { result.0.core ≡ table.core }
{
    let named = table.open::<T>();
    let ready = named.core().live().ready().len();
    (named.unname(), ready)
}

/// The table under a name, for a key.
fn key_by<T: TableRings>(
    table: UnnamedCounted,
    number: usize,
    columns: usize,
    row: &Row,
) -> (UnnamedCounted, Result<Key, Fault>)
    requires pages { table.pages ≡ T.pages }
    requires sides { table.sides ≡ T.sides }
    ensures ok { IfOk result.1 (IsFirstKey table.core.live.heap.schema columns (slice_get table.core.live.ready number) row.now) }
    ensures accepted { OnOk result.1 (key_refusal table.core.live number columns row.now ≡ None) }
    ensures refused { IfErr result.1 (RefusedFor (key_refusal table.core.live number columns row.now)) }
    ensures unchanged { result.0.core ≡ table.core }
{
    let named = table.open::<T>();
    let key = first_key(named.core(), number, columns, row);
    (named.unname(), key)
}

/// The key by the first columns of a ready index.
fn first_key<T: TableRings>(
    core: &Core<SpoolOfKind, T>,
    number: usize,
    columns: usize,
    row: &Row,
) -> Result<Key, Fault>
    ensures ok { IfOk result (IsFirstKey core.now.live.heap.schema columns (slice_get core.now.live.ready number) row.now) }
    ensures accepted { OnOk result (key_refusal core.now.live number columns row.now ≡ None) }
    ensures refused { IfErr result (RefusedFor (key_refusal core.now.live number columns row.now)) }
{
    let index = core.ready(number)?;
    let live = core.live();
    key_by_first(
        live.allocator(),
        live.heap().schema(),
        index.spec(),
        columns,
        row,
    )
}

/// The key by the first columns of a specification.
fn key_by_first(
    alloc: Global,
    schema: &Schema,
    spec: &KeySpec,
    count: usize,
    row: &Row,
) -> Result<Key, Fault>
    ensures ok { IfOk result (λ key. key ≡ key_of (first_columns schema.now count spec.now) row.now) }
    ensures accepted { OnOk result (first_cause (spec_refusal schema.now count spec.now) (shape_refusal schema.now row.now) ≡ None) }
    ensures refused { IfErr result (RefusedFor (first_cause (spec_refusal schema.now count spec.now) (shape_refusal schema.now row.now))) }
{
    let columns = first_columns(schema, spec, count)?;
    if !row.fits(schema) {
        return Err(Fault::RowShape);
    }
    key_by_columns(alloc, schema, columns, row)
}

/// The first columns of a specification, of a table with that schema.
fn first_columns<'a>(
    schema: &Schema,
    spec: &'a KeySpec,
    count: usize,
) -> Result<&'a [KeyCol], Fault>
    ensures columns { IfOk result (λ columns. columns.now ≡ take count spec.now.columns) }
    ensures key { IfOk result (λ columns. are_key_columns schema.now columns.now ≡ true) }
    ensures accepted { OnOk result (spec_refusal schema.now count spec.now ≡ None) }
    ensures refused { IfErr result (λ fault. spec_refusal schema.now count spec.now ≡ Some fault) }
{
    let all = spec.columns();
    if !has_so_many(count, all) {
        return Err(Fault::BadCount);
    }
    if !spec.is_of(schema) {
        return Err(Fault::BadColumn);
    }
    Ok(&all[..count])
}

/// Whether there are so many columns, and some.
fn has_so_many(count: usize, columns: &[KeyCol]) -> bool
    ensures { result ≡ (nat_le 1 count && nat_le count (length columns.now)) }
{
    count >= 1 && count <= columns.len()
}

/// The key by these columns of a table.
fn key_by_columns(
    alloc: Global,
    schema: &Schema,
    columns: &[KeyCol],
    row: &Row,
) -> Result<Key, Fault>
    requires key { are_key_columns schema.now columns.now ≡ true }
    requires fits { fits schema.now row.now ≡ true }
    ensures ok { IfOk result (λ key. key ≡ key_of (keyed_by schema.now columns.now) row.now) }
    ensures memory { IfErr result (λ fault. fault ≡ Fault.Memory) }
{
    let spec = KeySpec::new(alloc, schema, columns.to_vec(alloc)?, false)?;
    match spec.key(row)? {
        Some(key) => Ok(key),
        None => unreachable!(),
    }
}

/// The table under a name, for a pair.
fn next_of<T: TableRings>(
    table: UnnamedCounted,
    number: usize,
    key: &Key,
    rid: Rid,
    past: bool,
) -> (UnnamedCounted, Result<Option<(Key, Rid)>, Fault>)
    requires pages { table.pages ≡ T.pages }
    requires sides { table.sides ≡ T.sides }
    ensures ok { IfOk result.1 (λ found.
        GoesOnWith past (record { key = key.now; rid = rid }) (slice_get table.core.live.ready number) (option_map pair_of found)) }
    ensures refused { IfErr result.1 (RefusedFor (number_refusal (slice_get table.core.live.ready number))) }
    ensures unchanged { result.0.core ≡ table.core }
{
    let named = table.open::<T>();
    let found = next_pair(named.core(), number, key, rid, past);
    (named.unname(), found)
}

/// The next pair of a ready index.
fn next_pair<T: TableRings>(
    core: &Core<SpoolOfKind, T>,
    number: usize,
    key: &Key,
    rid: Rid,
    past: bool,
) -> Result<Option<(Key, Rid)>, Fault>
    ensures ok { IfOk result (λ found.
        GoesOnWith past (record { key = key.now; rid = rid }) (slice_get core.now.live.ready number) (option_map pair_of found)) }
    ensures refused { IfErr result (RefusedFor (number_refusal (slice_get core.now.live.ready number))) }
{
    let index = core.ready(number)?;
    match first_from(index.tree(), key, rid, past) {
        Some(pair) => Ok(Some((pair.key.clone()?, pair.rid))),
        None => Ok(None),
    }
}

/// The first pair of a tree from that of the key and RID on; with `past`, the first that is behind it.
fn first_from<'a>(tree: &'a Tree, key: &Key, rid: Rid, past: bool) -> Option<&'a Pair>
    ensures { MatchOption result
        (slice_get (onward past (record { key = key.now; rid = rid }) tree.now.pairs) 0 ≡ None)
        (λ pair. slice_get (onward past (record { key = key.now; rid = rid }) tree.now.pairs) 0 ≡ Some pair.now) }
{
    let mut pairs = tree.iter_from(key, rid);
    let first = pairs.next()?;
    if past && !is_after(first, key, rid) {
        return pairs.next();
    }
    Some(first)
}
