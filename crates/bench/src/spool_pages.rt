//! How many pages of a spool the pairs of a worker take, and how many workers so many rows need.
ghost use Rattle.std.specs.Prelude.{◌≡◌, ◌≤◌, ◌<◌, ℕ, true, false, MatchOption};
ghost use Rattle.bench.specs.SpoolPages.{fits, pages_for, share};

use builder_core::WORKERS_MAX;
use heap_table::SLOTS_MAX;
use spool_ledger::PAGE_SIZE;

/// The most pages of a spool where the workers are as many as the rows need.
const USUAL_MAX: usize = 1024;

/// The most pages of a spool.
const QUOTA_MAX: usize = 16_777_216;

/// The pairs of a run, which begins on a page of its own.
const RUN_PAIRS: usize = 4096;

/// The bytes of a pair beside its key.
const FIXED_SIZE: usize = 8;

/// The pages that so many pairs take, whose keys have that many bytes.
fn pages_for(key_size: usize, pairs: usize) -> usize
    requires key { key_size ≤ 258 }
    requires pairs { pairs ≤ 8589934592 }
    ensures { result ≡ pages_for key_size pairs }
{
    let on_page = PAGE_SIZE / (key_size + FIXED_SIZE);
    pairs / RUN_PAIRS * RUN_PAIRS.div_ceil(on_page) + (pairs % RUN_PAIRS).div_ceil(on_page)
}

/// The most rows that one of so many workers meets: its part of the table's pages.
fn share(rows: u32, workers: usize) -> usize
    requires { 0 < workers }
    ensures { result ≡ share rows workers }
{
    (rows as usize).div_ceil(workers) + 2 * SLOTS_MAX as usize
}

/// The pages that a spool is given for the part of one of so many workers: what its pairs take, and no more than a spool may have.
pub fn quota(rows: u32, key_size: usize, workers: usize) -> usize
    requires workers { 0 < workers }
    requires key { key_size ≤ 258 }
    ensures { result ≤ 16777216 }
{
    pages_for(key_size, share(rows, workers)).min(QUOTA_MAX)
}

/// Whether the pairs of one of so many workers find room in a spool.
fn fits(rows: u32, key_size: usize, workers: usize) -> bool
    requires workers { 0 < workers }
    requires key { key_size ≤ 258 }
    ensures { result ≡ fits rows key_size workers }
{
    pages_for(key_size, share(rows, workers)) <= USUAL_MAX
}

/// The fewest workers whose spools have room for the pairs of so many rows, if a build may have as many.
pub fn workers_for(rows: u32, key_size: usize) -> Option<usize>
    requires { key_size ≤ 258 }
    ensures enough { MatchOption result Unit (λ workers. (0 < workers) × (workers ≤ 16) × (fits rows key_size workers ≡ true)) }
    ensures fewest { (fewer : ℕ) → 0 < fewer → MatchOption result (fewer ≤ 16) (λ workers. fewer < workers) → fits rows key_size fewer ≡ false }
{
    for workers in 1..=WORKERS_MAX {
        if fits(rows, key_size, workers) {
            return Some(workers);
        }
    }
    None
}
