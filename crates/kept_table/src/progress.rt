//! How far a build is.
ghost use Rattle.std.specs.Prelude.{◌≡◌, min, is_some, count_by};
ghost use Rattle.kept_table.specs.Progresses.{all_unfed, index_count, pages_copied, pages_read, unfed_at};

use crate::Kept;
use crate::counted::Counted;
use crate::kept::taken;
use crate::unnamed_counted::UnnamedCounted;
use builder_core::{Core, TableRings};
use prefix_spool::SpoolOfKind;
use std::marker::Brand;

/// How far the build that runs is; where none does all is 0.
#[derive(Clone, Copy)]
pub struct Progress {
    pub running: bool,
    /// The pages that it reads.
    pub pages: u32,
    /// Those of them that it has copied.
    pub scanned: u32,
    pub indexes: usize,
    /// Those of its indexes whose pairs are in order.
    pub loaded: usize,
    /// The changes that were not fed yet, of all its indexes.
    pub waiting: usize,
}

impl Kept {
    /// How far the build that runs is. Takes no memory.
    pub fn progress(&mut self) -> Progress
        ensures running { result.running ≡ is_some self.old.core.live.build }
        ensures pages { result.pages ≡ pages_read self.old.core.live.build }
        ensures scanned { result.scanned ≡ pages_copied self.old.core.live.build }
        ensures indexes { result.indexes ≡ index_count self.old.core.live.build }
        ensures loaded { result.loaded ≡ count_by (λ index. index.loaded) self.old.core.work.indexes }
        ensures waiting { result.waiting ≡ min (all_unfed self.old.core.live) 18446744073709551615 }
        ensures unchanged { self.new ≡ self.old }
    {
        let (table, progress) = progress_of::<Brand>(taken(&mut self.table));
        self.table = Some(table);
        progress
    }
}

/// The table under a name, for how far its build is.
fn progress_of<T: TableRings>(table: UnnamedCounted) -> (UnnamedCounted, Progress)
    requires rings { table.pages ≡ T.pages }
    requires sides { table.sides ≡ T.sides }
    ensures running { result.1.running ≡ is_some table.core.live.build }
    ensures pages { result.1.pages ≡ pages_read table.core.live.build }
    ensures scanned { result.1.scanned ≡ pages_copied table.core.live.build }
    ensures indexes { result.1.indexes ≡ index_count table.core.live.build }
    ensures loaded { result.1.loaded ≡ count_by (λ index. index.loaded) table.core.work.indexes }
    ensures waiting { result.1.waiting ≡ min (all_unfed table.core.live) 18446744073709551615 }
    ensures unchanged { result.0.core ≡ table.core }
{
    let named = table.open::<T>();
    let progress = progress_at(&named);
    (named.unname(), progress)
}

/// How far the table's build is.
fn progress_at<T: TableRings>(counted: &Counted<T>) -> Progress
    ensures running { result.running ≡ is_some counted.now.live.build }
    ensures pages { result.pages ≡ pages_read counted.now.live.build }
    ensures scanned { result.scanned ≡ pages_copied counted.now.live.build }
    ensures indexes { result.indexes ≡ index_count counted.now.live.build }
    ensures loaded { result.loaded ≡ count_by (λ index. index.loaded) counted.now.work.indexes }
    ensures waiting { result.waiting ≡ min (all_unfed counted.now.live) 18446744073709551615 }
{
    let core = counted.core();
    let pages = counted.pages();
    let indexes = indexes_of(core);
    Progress {
        running: core.is_building(),
        pages: pages.all,
        scanned: pages.copied,
        indexes,
        loaded: core.loaded(),
        waiting: waiting_of(core, indexes),
    }
}

/// How many indexes the build has.
pub(crate) fn indexes_of<T: TableRings>(core: &Core<SpoolOfKind, T>) -> usize
    ensures { result ≡ index_count core.now.live.build }
{
    match core.live().specs() {
        Some(specs) => specs.len(),
        None => 0,
    }
}

/// How many entries of the build's side-files were not fed.
fn waiting_of<T: TableRings>(core: &Core<SpoolOfKind, T>, indexes: usize) -> usize
    requires { indexes ≡ index_count core.now.live.build }
    ensures { result ≡ min (all_unfed core.now.live) 18446744073709551615 }
{
    let mut waiting: usize = 0;
    for index in 0..indexes {
        waiting = waiting.saturating_add(left_of(core, index));
    }
    waiting
}

/// How many entries of an index's side-file were not fed.
pub(crate) fn left_of<T: TableRings>(core: &Core<SpoolOfKind, T>, index: usize) -> usize
    ensures { result ≡ unfed_at core.now.live.heap.log core.now.live.build index }
{
    match core.side(index) {
        Ok(entries) => entries.len(),
        Err(_) => 0,
    }
}
