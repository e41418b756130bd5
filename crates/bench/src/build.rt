//! What is made for a build: a table to measure on, the plan, and the spools.
ghost use Rattle.std.specs.Prelude.{◌≡◌, ◌*◌, ◌<◌, ◌∷◌, [], ◌%◌, if◌then◌else◌, length, IfOk};
ghost use Rattle.std.specs.Option.{option_map};
ghost use Rattle.bench.specs.Columns.{condition_of, key_column};

use crate::column::{Column, longest_key};
use crate::options::Options;
use crate::spool_pages::quota;
use builder_core::{Dealing, INDEXES_MAX, Parts, Plan, WORKERS_MAX};
use heap_table::{Heap, PAGES_MAX, SLOTS_MAX};
use keybytes::{Fault, KeyCol, KeySpec, Schema};
use prefix_spool::{CountedSpool, SpoolOfKind, spools_over};
use spool_ledger::Pool;
use std::alloc::Global;

/// No build has more workers, each with a spool for each of its indexes.
const SPOOLS_MAX: usize = WORKERS_MAX * INDEXES_MAX;

/// With threads the pages are dealt into so many ranges for each worker, so that none waits long for another at the end.
const RANGES_OF_A_WORKER: usize = 8;

/// A worker takes as many of these ranges as it can, so its spools have room for the parts of so many workers.
const PARTS_OF_A_SPOOL: usize = 4;

/// How often a build beside writers tries its switch, where it is to be unique and transactions of theirs are busy.
const TRIES: u32 = 5_000;

/// What a build is to do, and by which spools.
#[derive(Drop)]
pub struct Work {
    pub plan: Plan,
    pub spools: Vec<CountedSpool<SpoolOfKind>>,
}

impl Work {
    /// On a table of these columns.
    pub fn new(alloc: Global, schema: &Schema, options: &Options) -> Result<Work, Fault> {
        let plan = plan(alloc, schema, options)?;
        match spools(alloc, options) {
            Ok(spools) => Ok(Work { plan, spools }),
            Err(fault) => Err(fault),
        }
    }
}

/// An empty table of these columns, with as many rows a page as a page may have.
pub fn parts(alloc: Global, columns: &[Column]) -> Result<Parts, Fault> {
    let mut kinds = Vec::with_capacity(alloc, columns.len())?;
    for column in columns {
        kinds.push(column.values.kind())?;
    }
    let heap = Heap::new(alloc, Schema::new(kinds)?, SLOTS_MAX, PAGES_MAX)?;
    match Parts::new(alloc, heap) {
        Ok(parts) => Ok(parts),
        Err((_, fault)) => Err(fault),
    }
}

/// A spool of the kind that is chosen for each worker and index, with as many plain pages as the pairs of its part take.
fn spools(alloc: Global, options: &Options) -> Result<Vec<CountedSpool<SpoolOfKind>>, Fault> {
    let parts = if options.threads {
        options.workers.div_ceil(PARTS_OF_A_SPOOL)
    } else {
        options.workers
    };
    let quota = quota(options.rows, longest_key(options.columns.as_slice()), parts);
    let count = options
        .workers
        .saturating_mul(options.indexes as usize)
        .min(SPOOLS_MAX);
    let quotas = vec![in alloc; quota as u32; count]?;
    let mut pool = Pool::new(alloc, 0, (count * quota) as u32)?;
    let accounts = pool.split(alloc, quotas.as_slice())?;
    let mut spools = Vec::with_capacity(alloc, count)?;
    for spool in spools_over(alloc, options.spools, accounts)? {
        spools.push(CountedSpool::new(spool))?;
    }
    Ok(spools)
}

/// What the build of a table of these columns is to do.
pub fn plan(alloc: Global, schema: &Schema, options: &Options) -> Result<Plan, Fault>
    ensures workers { IfOk result (λ plan. plan.workers ≡ options.now.workers) }
    ensures dealing { IfOk result (λ plan. plan.dealing ≡ Dealing.Even (options.now.workers * (if options.now.threads then 8 else 1))) }
{
    let count = options.indexes as usize;
    let mut specs = Vec::with_capacity(alloc, count)?;
    for index in 0..count {
        specs.push(spec(alloc, schema, index, options)?)?;
    }
    let (ranges, tries) = if options.threads {
        (RANGES_OF_A_WORKER, TRIES)
    } else {
        (1, 1)
    };
    Ok(Plan {
        specs,
        workers: options.workers,
        dealing: Dealing::Even(options.workers * ranges),
        tries,
        keep_pairs: false,
    })
}

/// What makes the keys of the index of that number, from 0: the first is on the first column, the second on the second, and so on, around.
fn spec(alloc: Global, schema: &Schema, index: usize, options: &Options) -> Result<KeySpec, Fault>
    ensures kinds { IfOk result (λ spec. spec.kinds ≡ schema.now) }
    ensures columns { IfOk result (λ spec. spec.columns ≡ key_column options.now.columns.items (index % length schema.now) ∷ []) }
    ensures unique { IfOk result (λ spec. spec.unique ≡ options.now.unique) }
    ensures condition { IfOk result (λ spec. spec.condition ≡ option_map condition_of options.now.condition) }
{
    let place = index % schema.kinds().len();
    let columns = vec![in alloc; key_column(options.columns.as_slice(), place)]?;
    let spec = KeySpec::new(alloc, schema, columns, options.unique)?;
    match &options.condition {
        Some(condition) => spec.with_when(schema, condition.when()),
        None => Ok(spec),
    }
}

/// The column at a place of the table, as an index on it has it.
fn key_column(columns: &[Column], place: usize) -> KeyCol
    ensures { result ≡ key_column columns.now place }
{
    let descending = match columns.get(place) {
        Some(column) => column.descending,
        None => false,
    };
    KeyCol {
        column: place,
        descending,
    }
}
