//! A build that is done a piece at a time.
ghost use Rattle.std.specs.Prelude.{◌≡◌, ◌<◌, ℕ, true, false, List, [], ◌∷◌, Option, None, IfOk, IfErr, IfSome, IsSomeAnd, OnOk, OnErr};
ghost use Rattle.build_events.specs.Steps.{Does, Step};
ghost use Rattle.kept_table.specs.Pieces.{DoesPiece, FailsToAdvance, IsOfWork, IsPrepared, NotesWaits, StopsPiece, StopsWork, WorksToTheEnd};
ghost use Rattle.kept_table.specs.Shapes.{DoesAll, DoesCopy, HasIndex, HasOpenRange, HasPageIn, HasWorker, HasWorkers, IsHeldUp, IsPutOff, IsThere};
ghost use Rattle.kept_table.specs.Shapes.{IsUnsealed, PutsInOrder, ScansIfRoom, StopsCopy, StopsOrdering};

use crate::Kept;
use crate::builds::decide;
use crate::catching_up::catch_up;
use crate::counted::Counted;
use crate::decided::Decided;
use crate::kept::taken;
use crate::unnamed_counted::UnnamedCounted;
use crate::waits::Waits;
use builder_core::{Event, Reply, TableRings};
use keybytes::Fault;
use std::marker::Brand;

impl Kept {
    /// Does the next piece of the build that runs, and answers whether it was the last, a switch that decided: copies a page and makes the pairs of one
    /// copy, or lets a worker close its runs, or puts the pairs of an index in order, or catches up: applies of each index as many entries as were
    /// appended since the last piece that did, and `most` more, at least one (`most` where it is the first), and tries the switch, which keeps what it
    /// decides of each index. So what waits falls by `most` with each such piece, however much is written between two of them. [`Fault::NoBuild`] where no
    /// build runs. After [`Fault::Busy`] it can be called again, and after [`Fault::Memory`] of a copy, of entries or of the switch; after the fault of a
    /// spoiled build, and after [`Fault::NoPage`] and [`Fault::Memory`] where these spoil it, the build can only be given up.
    pub fn advance(&mut self, most: usize) -> Result<bool, Fault>
        ensures ready { IfOk result (λ ready. ready ≡ true
            → IsSomeAnd self.new.decided (λ decided. WorksToTheEnd most self.old.waited self.old.core decided self.new.core)) }
        ensures forgotten { IfOk result (λ ready. ready ≡ true → self.new.waited ≡ None) }
        ensures goes_on { IfOk result (λ ready. ready ≡ false
            → DoesPiece most self.old.waited self.old.core self.new.core × (self.new.decided ≡ self.old.decided)) }
        ensures waits { IfOk result (λ ready. ready ≡ false → NotesWaits self.old.core self.old.waited self.new.core self.new.waited) }
        ensures refused { IfErr result (λ fault. FailsToAdvance most self.old.waited self.old.core fault self.new.core self.new.waited) }
        ensures kept { OnErr result (self.new.decided ≡ self.old.decided) }
    {
        let (table, ready) = advanced::<Brand>(
            taken(&mut self.table),
            &mut self.decided,
            &mut self.waited,
            most,
        );
        self.table = Some(table);
        ready
    }
}

/// The table under a name, for a piece of its build.
fn advanced<T: TableRings>(
    table: UnnamedCounted,
    decided: &mut Option<Decided>,
    waited: &mut Option<Waits>,
    most: usize,
) -> (UnnamedCounted, Result<bool, Fault>)
    requires rings { table.pages ≡ T.pages }
    requires sides { table.sides ≡ T.sides }
    ensures ready { IfOk result.1 (λ ready. ready ≡ true → IsSomeAnd decided.new (λ told. WorksToTheEnd most waited.old table.core told result.0.core)) }
    ensures forgotten { IfOk result.1 (λ ready. ready ≡ true → waited.new ≡ None) }
    ensures goes_on { IfOk result.1 (λ ready. ready ≡ false → DoesPiece most waited.old table.core result.0.core × (decided.new ≡ decided.old)) }
    ensures waits { IfOk result.1 (λ ready. ready ≡ false → NotesWaits table.core waited.old result.0.core waited.new) }
    ensures refused { IfErr result.1 (λ fault. FailsToAdvance most waited.old table.core fault result.0.core waited.new) }
    ensures kept { OnErr result.1 (decided.new ≡ decided.old) }
{
    let mut named = table.open::<T>();
    let ready = advance(&mut named, decided, waited, most);
    (named.unname(), ready)
}

/// Does the next piece, and answers whether it was the switch.
fn advance<T: TableRings>(
    counted: &mut Counted<T>,
    decided: &mut Option<Decided>,
    waited: &mut Option<Waits>,
    most: usize,
) -> Result<bool, Fault>
    ensures ready { IfOk result (λ ready. ready ≡ true → IsSomeAnd decided.new (λ told. WorksToTheEnd most waited.old counted.old told counted.new)) }
    ensures forgotten { IfOk result (λ ready. ready ≡ true → waited.new ≡ None) }
    ensures goes_on { IfOk result (λ ready. ready ≡ false → DoesPiece most waited.old counted.old counted.new × (decided.new ≡ decided.old)) }
    ensures waits { IfOk result (λ ready. ready ≡ false → NotesWaits counted.old waited.old counted.new waited.new) }
    ensures refused { IfErr result (λ fault. FailsToAdvance most waited.old counted.old fault counted.new waited.new) }
    ensures kept { OnErr result (decided.new ≡ decided.old) }
{
    match prepare(counted) {
        Ok(true) => Ok(false),
        Ok(false) => finish(counted, decided, waited, most),
        Err(fault) => Err(fault),
    }
}

/// Copies a page, or puts the pairs of an index in order or closes the runs of a worker, and answers whether there was something of that to do;
/// there isn't where no build runs.
fn prepare<T: TableRings>(counted: &mut Counted<T>) -> Result<bool, Fault>
    ensures done { IfOk result (λ more. more ≡ true → (most : ℕ) → (waited : Option (List ℕ)) → DoesPiece most waited counted.old counted.new) }
    ensures due { IfOk result (λ more. more ≡ true → IsPrepared counted.old → ⊥) }
    ensures prepared { IfOk result (λ more. more ≡ false → IsPrepared counted.old × (counted.new ≡ counted.old)) }
    ensures refused { IfErr result (λ fault. (most : ℕ) → (waited : Option (List ℕ)) → StopsPiece most waited counted.old fault counted.new) }
{
    counted.laws();
    let Some((workers, range)) = build_counts(counted) else {
        return Ok(false);
    };
    if let Some(range) = range {
        copy_page(counted, range, range % workers)?;
        return Ok(true);
    }
    if let Some(index) = counted.core().first_unloaded() {
        put_in_order(counted, index)?;
        return Ok(true);
    }
    Ok(false)
}

/// The workers of the build that runs, and its lowest range that has a page left; none of that where none runs.
fn build_counts<T: TableRings>(counted: &Counted<T>) -> Option<(usize, Option<usize>)>
    ensures none { result ≡ None → counted.now.live.build ≡ None }
    ensures workers { IfSome result (λ counts. HasWorkers counts.0 counted.now) }
    ensures range { IfSome result (λ counts. HasOpenRange counts.1 counted.now) }
{
    match counted.core().live().build() {
        Some(build) => Some((build.workers(), build.first_open())),
        None => None,
    }
}

/// Applies entries of each index, notes how many wait then, tries the switch, and answers whether that decided. A switch that is behind, since more
/// entries are left than it applies itself, is tried again with the next piece. So a build needn't wait until writers leave nothing to apply.
fn finish<T: TableRings>(
    counted: &mut Counted<T>,
    decided: &mut Option<Decided>,
    waited: &mut Option<Waits>,
    most: usize,
) -> Result<bool, Fault>
    requires { IsPrepared counted.old }
    ensures ready { IfOk result (λ ready. ready ≡ true → IsSomeAnd decided.new (λ told. WorksToTheEnd most waited.old counted.old told counted.new)) }
    ensures forgotten { IfOk result (λ ready. ready ≡ true → waited.new ≡ None) }
    ensures goes_on { IfOk result (λ ready. ready ≡ false → DoesPiece most waited.old counted.old counted.new × (decided.new ≡ decided.old)) }
    ensures waits { IfOk result (λ ready. ready ≡ false → NotesWaits counted.old waited.old counted.new waited.new) }
    ensures refused { IfErr result (λ fault. FailsToAdvance most waited.old counted.old fault counted.new waited.new) }
    ensures kept { OnErr result (decided.new ≡ decided.old) }
{
    counted.laws();
    let caught_up = catch_up(counted, waited, most.max(1));
    counted.laws();
    match caught_up {
        Ok(()) => (),
        Err(fault) => return Err(fault),
    }
    *waited = Some(Waits::of_core(counted.core()));
    match decide(counted, decided) {
        Ok(_number) => {
            *waited = None;
            Ok(true)
        }
        Err(fault) => match fault {
            Fault::Behind(_left) => Ok(false),
            other => Err(other),
        },
    }
}

/// Copies the next page of the range for the worker, unless it has as many copies as it may, and lets it make the pairs of one copy.
fn copy_page<T: TableRings>(
    counted: &mut Counted<T>,
    range: usize,
    worker: usize,
) -> Result<(), Fault>
    requires page { HasPageIn range counted.old }
    requires worker { HasWorker worker counted.old }
    ensures done { OnOk result (DoesCopy range worker counted.old counted.new) }
    ensures refused { IfErr result (λ fault. StopsCopy range worker counted.old fault counted.new) }
{
    scan(counted, range, worker)?;
    digest(counted, worker)
}

/// Copies the next page of the range for the worker, unless it has as many copies as it may.
fn scan<T: TableRings>(counted: &mut Counted<T>, range: usize, worker: usize) -> Result<(), Fault>
    requires page { HasPageIn range counted.old }
    requires worker { HasWorker worker counted.old }
    ensures done { OnOk result (ScansIfRoom range worker counted.old counted.new) }
    ensures refused { IfErr result (λ fault. StopsWork (Event.Scan range worker ∷ []) counted.old fault counted.new) }
{
    match attempt(counted, Event::Scan { range, worker }) {
        Ok(_reply) => Ok(()),
        Err(fault) => match fault {
            Fault::RingFull => Ok(()),
            other => Err(other),
        },
    }
}

/// Lets the worker make the pairs of one copy.
fn digest<T: TableRings>(counted: &mut Counted<T>, worker: usize) -> Result<(), Fault>
    requires { HasWorker worker counted.old }
    ensures done { OnOk result (DoesAll (Event.Digest worker ∷ []) counted.old counted.new) }
    ensures refused { IfErr result (λ fault. StopsWork (Event.Digest worker ∷ []) counted.old fault counted.new) }
{
    match work(counted, Event::Digest { worker }) {
        Ok(_reply) => Ok(()),
        Err(fault) => Err(fault),
    }
}

/// Puts the pairs of the index in order, or lets the lowest worker close its runs that has not.
fn put_in_order<T: TableRings>(counted: &mut Counted<T>, index: usize) -> Result<(), Fault>
    requires index { HasIndex index counted.old }
    requires scanned { HasOpenRange None counted.old }
    ensures done { OnOk result (PutsInOrder index counted.old counted.new) }
    ensures refused { IfErr result (λ fault. StopsOrdering index counted.old fault counted.new) }
{
    match load(counted, index)? {
        Some(worker) => seal(counted, worker),
        None => Ok(()),
    }
}

/// Puts the pairs of the index in order, or answers the lowest worker that has not closed its runs.
fn load<T: TableRings>(counted: &mut Counted<T>, index: usize) -> Result<Option<usize>, Fault>
    requires index { HasIndex index counted.old }
    requires scanned { HasOpenRange None counted.old }
    ensures done { IfOk result (λ unsealed. unsealed ≡ None → DoesAll (Event.Load index ∷ []) counted.old counted.new) }
    ensures unsealed { IfOk result (λ unsealed. IfSome unsealed (λ worker.
        IsUnsealed index worker counted.old × HasWorker worker counted.old × (counted.new ≡ counted.old))) }
    ensures refused { IfErr result (λ fault. StopsWork (Event.Load index ∷ []) counted.old fault counted.new) }
{
    counted.laws();
    match attempt(counted, Event::Load { index }) {
        Ok(_reply) => Ok(None),
        Err(fault) => match fault {
            Fault::NotSealed(worker) => Ok(Some(worker)),
            other => Err(other),
        },
    }
}

/// Lets the worker close its runs.
fn seal<T: TableRings>(counted: &mut Counted<T>, worker: usize) -> Result<(), Fault>
    requires { HasWorker worker counted.old }
    ensures done { OnOk result (DoesAll (Event.Seal worker ∷ []) counted.old counted.new) }
    ensures refused { IfErr result (λ fault. StopsWork (Event.Seal worker ∷ []) counted.old fault counted.new) }
{
    match work(counted, Event::Seal { worker }) {
        Ok(_reply) => Ok(()),
        Err(fault) => Err(fault),
    }
}

/// Does one event of the build's work that waits for no other one.
pub(crate) fn work<T: TableRings>(counted: &mut Counted<T>, event: Event) -> Result<Reply, Fault>
    requires work { IsOfWork event }
    requires there { IsThere event counted.old }
    requires waits { (fault : Fault) → IsPutOff event fault → ⊥ }
    ensures done { OnOk result (DoesAll (event ∷ []) counted.old counted.new) }
    ensures told { IfOk result (λ reply. Does counted.old event reply counted.new) }
    ensures refused { IfErr result (λ fault. StopsWork (event ∷ []) counted.old fault counted.new) }
    ensures step { IfErr result (λ fault. Step counted.old event (Reply.Refused fault) counted.new) }
{
    attempt(counted, event)
}

/// Does one event of the build's work, unless it has to wait for another.
fn attempt<T: TableRings>(counted: &mut Counted<T>, event: Event) -> Result<Reply, Fault>
    requires work { IsOfWork event }
    requires there { IsThere event counted.old }
    ensures done { OnOk result (DoesAll (event ∷ []) counted.old counted.new) }
    ensures told { IfOk result (λ reply. Does counted.old event reply counted.new) }
    ensures held { IfErr result (λ fault. IsHeldUp counted.old event fault counted.new) }
{
    counted.laws();
    match counted.step(event) {
        Reply::Refused { fault } => Err(fault),
        reply => Ok(reply),
    }
}
