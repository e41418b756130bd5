//! The spools of a build.
ghost use Rattle.std.specs.Prelude.{◌≡◌};
ghost use Rattle.csv_index.specs.Sizes.{keys_sizes, pages_of, quota_of};

use crate::table::KeySizes;
use builder_core::{INDEXES_MAX, WORKERS_MAX};
use keybytes::{Fault, KEY_MAX, KeySpec};
use prefix_spool::{CountedSpool, SpoolOfKind, spools_over};
use run_spool::SpoolChoice;
use spool_ledger::{PAGE_SIZE, Pool};
use std::alloc::Global;

/// The bytes of a pair beside its key.
const FIXED_SIZE: u64 = 8;

/// The pairs of a run, which begins on a page of its own.
const RUN_PAIRS: u64 = 4_096;

/// A worker takes as many ranges as it can, so its spools have room for the parts of so many workers ..
const PARTS_OF_A_SPOOL: u64 = 4;

/// .. and for those of all, where all spools together have no more pages.
const AMPLE: u64 = 65_536;

/// What a spool has beside that, for its last run and the page that is filled.
const PAGES_BESIDE: u64 = 8;

/// The most pages of a spool.
const QUOTA_MAX: u64 = 16_777_216;

/// What a build is about, as far as its spools go.
#[derive(Clone, Copy)]
pub struct Amount<'a> {
    pub rows: u64,
    pub workers: usize,
    /// Of each column.
    pub sizes: &'a [KeySizes],
}

/// A spool for each worker and index, in the order of the workers, each with a count of its pages.
pub fn counted_spools(
    alloc: Global,
    amount: Amount<'_>,
    specs: &[KeySpec],
) -> Result<Vec<CountedSpool<SpoolOfKind>>, Fault> {
    let spools = spools(alloc, amount, specs)?;
    let mut counted = Vec::with_capacity(alloc, spools.len())?;
    for spool in spools {
        counted.push(CountedSpool::new(spool))?;
    }
    Ok(counted)
}

fn spools(alloc: Global, amount: Amount<'_>, specs: &[KeySpec]) -> Result<Vec<SpoolOfKind>, Fault> {
    let count = amount.workers.min(WORKERS_MAX).saturating_mul(specs.len());
    let mut quotas = Vec::new(alloc);
    for _ in 0..amount.workers.min(WORKERS_MAX) {
        for spec in specs.iter().take(INDEXES_MAX) {
            quotas.push(quota(amount, spec, count))?;
        }
    }
    let mut pages = 0u32;
    for quota in &quotas {
        pages = pages.saturating_add(*quota);
    }
    let mut pool = Pool::new(alloc, 0, pages)?;
    let accounts = pool.split(alloc, quotas.as_slice())?;
    spools_over(alloc, SpoolChoice::Plain, accounts)
}

/// The pages that a spool of the index is given, of so many spools: as many as all pairs take, where that isn't too much for all spools together.
fn quota(amount: Amount<'_>, spec: &KeySpec, spools: usize) -> u32
    ensures { result ≡ quota_of (pages_of amount.entry.rows (keys_sizes amount.entry.sizes.now spec.now.columns)) amount.entry.workers spools }
{
    let whole = pages_for(amount.rows, sizes_of(amount, spec));
    let parts = if whole.saturating_mul(spools as u64) <= AMPLE {
        1
    } else {
        (amount.workers as u64).div_ceil(PARTS_OF_A_SPOOL)
    };
    let pages = whole / parts.max(1);
    pages.saturating_add(PAGES_BESIDE).min(QUOTA_MAX) as u32
}

/// The pages that so many pairs take at most, whose keys have these sizes.
fn pages_for(rows: u64, sizes: KeySizes) -> u64
    ensures { result ≡ pages_of rows sizes }
{
    let bytes = sizes.bytes.saturating_add(rows.saturating_mul(FIXED_SIZE));
    let full = PAGE_SIZE as u64 - FIXED_SIZE - sizes.longest.min(KEY_MAX) as u64;
    bytes.div_ceil(full).saturating_add(rows / RUN_PAIRS)
}

/// How many bytes the keys of the index have.
fn sizes_of(amount: Amount<'_>, spec: &KeySpec) -> KeySizes
    ensures { result ≡ keys_sizes amount.entry.sizes.now spec.now.columns }
{
    let mut sizes = KeySizes::NONE;
    for column in spec.columns() {
        if let Some(of_column) = amount.sizes.get(column.column) {
            sizes = sizes.and(*of_column);
        }
    }
    sizes
}
