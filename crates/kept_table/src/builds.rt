//! The start and the end of a build, on a table that is kept.
ghost use Rattle.std.specs.Prelude.{◌≡◌, true, None, is_some, IfOk, IfErr, IfSome, IsSomeAnd, OnOk, OnErr};
ghost use Rattle.build_events.specs.Steps.{Step};
ghost use Rattle.leased_core.specs.Leasing.{EndsBuild, StartsOver};
ghost use Rattle.kept_table.specs.Decisions.{Decides, FailsToDecide};
ghost use Rattle.kept_table.specs.Starts.{RefusesStart, start_limits_refusal};

use crate::Kept;
use crate::counted::Counted;
use crate::decided::Decided;
use crate::kept::taken;
use crate::unnamed_counted::UnnamedCounted;
use crate::waits::forget_if;
use builder_core::{Event, INDEXES_MAX, Plan, Reply, TableRings, WORKERS_MAX};
use keybytes::{Fault, KeySpec, copied_specs};
use run_spool::SpoolChoice;
use std::marker::Brand;

/// How many pages a spool may lease.
const QUOTA_MAX: usize = 1_024;

impl Kept {
    /// Starts a build over new spools of the kinds that are chosen, each with its quota of pages, and answers how many pages of the
    /// table it reads. [`Fault::BuildRunning`]; [`Fault::BadCount`] for more than 16 workers, 8 indexes or 1,024 pages a spool; then why the plan
    /// starts none. Where that is refused the spools are given up again.
    pub fn start(&mut self, choice: SpoolChoice, quota: usize, plan: Plan) -> Result<u32, Fault>
        ensures started { IfOk result (λ pages. StartsOver choice quota plan self.old.core (Reply.Started pages) self.new.core) }
        ensures accepted { OnOk result (start_limits_refusal quota plan self.old.core ≡ None) }
        ensures refused { IfErr result (RefusesStart choice quota plan self.old.core) }
        ensures unchanged { OnErr result (self.new ≡ self.old) }
        ensures decided { self.new.decided ≡ self.old.decided }
        ensures waited { OnOk result (self.new.waited ≡ None) }
    {
        let (table, started) = started::<Brand>(taken(&mut self.table), choice, quota, plan);
        self.table = Some(table);
        forget_if(&mut self.waited, started.is_ok());
        started
    }

    /// Tries to bring the build's indexes into use, and answers with the number of the log record. Once that is decided the spools are given up, and
    /// what was decided is kept. [`Fault::Memory`] is also the answer where there is none to keep it.
    pub fn switch(&mut self) -> Result<usize, Fault>
        ensures decided { IfOk result (λ number. IsSomeAnd self.new.decided (λ decided. Decides self.old.core number decided self.new.core)) }
        ensures refused { IfErr result (λ fault. FailsToDecide self.old.core fault self.new.core) }
        ensures kept { OnErr result (self.new.decided ≡ self.old.decided) }
        ensures forgotten { OnOk result (self.new.waited ≡ None) }
        ensures waited { OnErr result (self.new.waited ≡ self.old.waited) }
    {
        let (table, number) = switched::<Brand>(taken(&mut self.table), &mut self.decided);
        self.table = Some(table);
        forget_if(&mut self.waited, number.is_ok());
        number
    }

    /// Gives the build up, and its pages come back.
    pub fn abandon(&mut self) -> Result<(), Fault>
        ensures abandoned { OnOk result (EndsBuild Event.Abandon Reply.Abandoned self.old.core self.new.core) }
        ensures refused { IfErr result (λ fault. Step self.old.core Event.Abandon (Reply.Refused fault) self.new.core) }
        ensures decided { self.new.decided ≡ self.old.decided }
        ensures forgotten { OnOk result (self.new.waited ≡ None) }
        ensures waited { OnErr result (self.new.waited ≡ self.old.waited) }
    {
        let (table, abandoned) = abandoned::<Brand>(taken(&mut self.table));
        self.table = Some(table);
        forget_if(&mut self.waited, abandoned.is_ok());
        abandoned
    }
}

/// The table under a name, for a start.
fn started<T: TableRings>(
    table: UnnamedCounted,
    choice: SpoolChoice,
    quota: usize,
    plan: Plan,
) -> (UnnamedCounted, Result<u32, Fault>)
    requires pages { table.pages ≡ T.pages }
    requires sides { table.sides ≡ T.sides }
    ensures started { IfOk result.1 (λ pages. StartsOver choice quota plan table.core (Reply.Started pages) result.0.core) }
    ensures accepted { OnOk result.1 (start_limits_refusal quota plan table.core ≡ None) }
    ensures refused { IfErr result.1 (RefusesStart choice quota plan table.core) }
    ensures unchanged { OnErr result.1 (result.0.core ≡ table.core) }
{
    let mut named = table.open::<T>();
    let started = start_in_limits(&mut named, choice, quota, plan);
    (named.unname(), started)
}

/// Starts a build, unless one runs or there would be too many spools, or pages for one of them.
fn start_in_limits<T: TableRings>(
    counted: &mut Counted<T>,
    choice: SpoolChoice,
    quota: usize,
    plan: Plan,
) -> Result<u32, Fault>
    ensures started { IfOk result (λ pages. StartsOver choice quota plan counted.old (Reply.Started pages) counted.new) }
    ensures accepted { OnOk result (start_limits_refusal quota plan counted.old ≡ None) }
    ensures refused { IfErr result (RefusesStart choice quota plan counted.old) }
    ensures unchanged { OnErr result (counted.new ≡ counted.old) }
{
    if counted.core().is_building() {
        return Err(Fault::BuildRunning);
    }
    if plan.workers > WORKERS_MAX || plan.specs.len() > INDEXES_MAX || quota > QUOTA_MAX {
        return Err(Fault::BadCount);
    }
    counted.start(choice, quota, plan)
}

/// The table under a name, for a switch.
fn switched<T: TableRings>(
    table: UnnamedCounted,
    decided: &mut Option<Decided>,
) -> (UnnamedCounted, Result<usize, Fault>)
    requires pages { table.pages ≡ T.pages }
    requires sides { table.sides ≡ T.sides }
    ensures decided { IfOk result.1 (λ number. IsSomeAnd decided.new (λ told. Decides table.core number told result.0.core)) }
    ensures refused { IfErr result.1 (λ fault. FailsToDecide table.core fault result.0.core) }
    ensures kept { OnErr result.1 (decided.new ≡ decided.old) }
{
    let mut named = table.open::<T>();
    let number = decide(&mut named, decided);
    (named.unname(), number)
}

/// Tries the switch, and notes what it decides. What makes the keys of the build's indexes is copied before.
pub(crate) fn decide<T: TableRings>(
    counted: &mut Counted<T>,
    decided: &mut Option<Decided>,
) -> Result<usize, Fault>
    ensures decided { IfOk result (λ number. IsSomeAnd decided.new (λ told. Decides counted.old number told counted.new)) }
    ensures refused { IfErr result (λ fault. FailsToDecide counted.old fault counted.new) }
    ensures kept { OnErr result (decided.new ≡ decided.old) }
{
    let specs = build_specs(counted)?;
    let (number, verdicts) = counted.switch()?;
    *decided = Some(Decided::new(specs, verdicts));
    Ok(number)
}

/// Copies of what makes the keys of the indexes that are being built.
fn build_specs<T: TableRings>(counted: &Counted<T>) -> Result<Vec<KeySpec>, Fault>
    ensures ok { IfOk result (λ specs. IfSome counted.now.live.build (λ b. specs.items ≡ b.specs)) }
    ensures memory { IfErr result (λ fault. fault ≡ Fault.Memory) }
    ensures building { OnErr result (is_some counted.now.live.build ≡ true) }
{
    let live = counted.core().live();
    match live.specs() {
        Some(specs) => copied_specs(live.allocator(), specs),
        None => Ok(Vec::new(live.allocator())),
    }
}

/// The table under a name, for an abandon.
fn abandoned<T: TableRings>(table: UnnamedCounted) -> (UnnamedCounted, Result<(), Fault>)
    requires pages { table.pages ≡ T.pages }
    requires sides { table.sides ≡ T.sides }
    ensures abandoned { OnOk result.1 (EndsBuild Event.Abandon Reply.Abandoned table.core result.0.core) }
    ensures refused { IfErr result.1 (λ fault. Step table.core Event.Abandon (Reply.Refused fault) result.0.core) }
{
    let mut named = table.open::<T>();
    let abandoned = named.abandon();
    (named.unname(), abandoned)
}
