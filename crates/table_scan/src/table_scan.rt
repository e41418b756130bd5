//! What the table knows of the build that runs.
ghost use Rattle.std.specs.Prelude.{◌≡◌, ◌≢◌, ℕ, ◌+◌, ◌^◌, ◌||◌, ◌++◌, ◌∷◌, ◌<◌, ◌≤◌, [], length, map, Some, is_some, nat_le, slice_get, IfOk, IfErr};
ghost use Rattle.std.specs.List.{list_any};
ghost use Rattle.scan_range.specs.Ranges.{at_start};
ghost use Rattle.table_scan.specs.SideFiles.{sees};
ghost use Rattle.build_events.specs.CoreState.{BuildState};
ghost use Rattle.table_scan.specs.TableBuilds.{AreScansOf, build_over};
ghost use Rattle.build_events.specs.Ranges.{next_page, open_range};
ghost use Rattle.build_events.specs.Scanning.{scanned_at};
ghost use Rattle.build_events.specs.BuildSteps.{after_feed};
ghost use Rattle.build_events.specs.Workers.{fed_to};

use build_events::Scan;
use keybytes::{Fault, KeySpec, Rid};
use scan_range::{Cuts, Ranges};
use std::alloc::Global;
use std::marker::Model;
use visibility::visible;

/// A running build: how far each of its ranges is, which pages were copied, in their order, and how many entries of each index's
/// side-file were fed.
pub struct TableScan {
    number: u64,
    specs: Vec<KeySpec>,
    workers: usize,
    opened: usize,
    ranges: Ranges,
    scans: Vec<Scan>,
    fed: Vec<usize>,
}

impl Drop for TableScan {
    fn drop(self) {
        let TableScan {
            number: _,
            specs: _,
            workers: _,
            opened: _,
            ranges: _,
            scans: _,
            fed: _,
        } = self;
    }
}

impl Model for TableScan {
    ghost use Rattle.std.specs.Prelude.{◌≡◌, ◌≤◌, length};
    ghost use Rattle.std.specs.Vec.{vec_capacity};
    ghost use Rattle.build_events.specs.CoreState.{BuildState};
    ghost use Rattle.table_scan.specs.TableBuilds.{AreScansOf, build_over};

    ghost Value = { BuildState };

    ghost view = { λ b. build_over b.number b.specs.items b.workers b.opened
        (record { pages = b.ranges.pages; ends = b.ranges.ends }) b.scans.items b.fed.items };

    ghost invariant = { λ b. AreScansOf b.ranges b.workers b.scans.items × (b.ranges.pages ≤ vec_capacity b.scans)
        × (length b.fed.items ≡ length b.specs.items) };
}

impl TableScan {
    /// A build of these indexes with that number, by so many workers, of a table that has so many records, over the ranges of its
    /// pages. Takes the memory for all its scans: 24 bytes a page.
    pub fn new(
        alloc: Global,
        number: u64,
        specs: Vec<KeySpec>,
        workers: usize,
        opened: usize,
        cuts: Cuts,
    ) -> Result<TableScan, Fault>
        requires { cuts.pages ≤ 65536 }
        ensures ok { IfOk result (λ b. b ≡ build_over number specs.items workers opened cuts [] (map (λ spec. 0) specs.items)) }
        ensures memory { IfErr result (λ fault. fault ≡ Fault.Memory) }
    {
        let pages = cuts.pages() as usize;
        Ok(TableScan {
            number,
            fed: none_fed(alloc, &specs)?,
            specs,
            workers,
            opened,
            ranges: Ranges::new(alloc, cuts)?,
            scans: Vec::with_capacity(alloc, pages)?,
        })
    }

    /// Its number.
    pub fn number(&self) -> u64
        ensures { result ≡ self.now.number }
    {
        self.number
    }

    /// How many indexes it has.
    pub fn indexes(&self) -> usize
        ensures { result ≡ length self.now.specs }
    {
        self.specs.len()
    }

    /// What makes the keys of each of them.
    pub fn specs(&self) -> &[KeySpec]
        ensures { result.now ≡ self.now.specs }
    {
        self.specs.as_slice()
    }

    /// What makes the keys of one of them.
    pub fn spec(&self, index: usize) -> &KeySpec
        requires { index < length self.now.specs }
        ensures { slice_get self.now.specs index ≡ Some result.now }
    {
        &self.specs[index]
    }

    /// Whether one of them is unique.
    pub fn has_unique(&self) -> bool
        ensures { result ≡ list_any (λ spec. spec.unique) self.now.specs }
    {
        self.specs.iter().any(|spec| spec.unique())
    }

    /// How many ranges its pages are cut into.
    pub fn ranges(&self) -> usize
        ensures { result ≡ length self.now.ends }
    {
        self.ranges.len()
    }

    /// How many workers it has.
    pub fn workers(&self) -> usize
        ensures { result ≡ self.now.workers }
    {
        self.workers
    }

    /// The lowest page of the range that is still to be copied.
    pub fn next_page(&self, range: usize) -> Option<u32>
        requires { range < length self.now.ends }
        ensures { result ≡ next_page self.now range }
    {
        self.ranges.laws();
        if self.ranges.done(range) {
            return None;
        }
        Some(self.ranges.cur(range))
    }

    /// The lowest range with such a page.
    pub fn first_open(&self) -> Option<usize>
        ensures { result ≡ open_range self.now }
    {
        for range in 0..self.ranges() {
            if self.next_page(range).is_some() {
                return Some(range);
            }
        }
        None
    }

    /// Whether the build has to hear of changes at the RID: its page came after the build started, or was copied.
    pub fn sees(&self, rid: Rid) -> bool
        ensures { result ≡ sees self.now rid }
    {
        visible(&self.ranges, rid)
    }

    /// Notes that the next page of the range was copied for the worker, when the log had so many records.
    pub fn note(&mut self, range: usize, worker: usize, page: u32, records: usize)
        requires next { next_page self.old range ≡ Some page }
        requires there { worker < self.old.workers }
        ensures noted { self.new ≡ record self.old { scans = self.old.scans ++ record { worker = worker; page = page; records = records } ∷ [] } }
        ensures others { (other : ℕ) → other ≢ range → next_page self.new other ≡ next_page self.old other }
    {
        self.ranges.laws();
        let Ok(()) = self.ranges.advance(range) else {
            unreachable!()
        };
        self.scans.push_reserved(Scan {
            worker,
            page,
            records,
        });
    }

    /// Notes that so many entries more of the index were fed.
    pub fn note_fed(&mut self, index: usize, count: usize)
        requires there { index < length self.old.specs }
        requires countable { fed_to self.old index + count < 2 ^ 64 }
        ensures { self.new ≡ after_feed self.old index count }
    {
        self.fed[index] += count;
    }

    /// What makes the keys of its indexes.
    pub fn into_specs(self) -> Vec<KeySpec>
        ensures { self.specs ≡ result.items }
    {
        let TableScan {
            number: _,
            specs: own_specs,
            workers: _,
            opened: _,
            ranges: _,
            scans: _,
            fed: _,
        } = self;
        own_specs
    }
}

/// That no entry of these indexes was fed.
fn none_fed(alloc: Global, specs: &[KeySpec]) -> Result<Vec<usize>, Fault>
    ensures ok { IfOk result (λ fed. fed.items ≡ map (λ spec. 0) specs.now) }
    ensures memory { IfErr result (λ fault. fault ≡ Fault.Memory) }
{
    let mut fed = Vec::with_capacity(alloc, specs.len())?;
    for _ in specs {
        fed.push_reserved(0);
    }
    Ok(fed)
}
