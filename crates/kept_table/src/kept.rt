ghost use Rattle.std.specs.Prelude.{◌≡◌, true, None, Some, is_some, IfOk, IfErr};
ghost use Rattle.build_events.specs.Steps.{HasPageCause, Step};
ghost use Rattle.leased_core.specs.Leasing.{IsHandedBack, KeepsBuild, WantedLeasedPage};
ghost use Rattle.kept_table.specs.KeptTables.{new_table};

use crate::counted::Counted;
use crate::decided::Decided;
use crate::unnamed_counted::UnnamedCounted;
use crate::waits::Waits;
use builder_core::{Event, Parts, Reply, TableRings};
use heap_table::Heap;
use keybytes::Fault;
use leased_core::HandedBack;
use std::alloc::Global;
use std::marker::{Brand, Model};

/// A table with its builds, without a name, what its newest switch decided, and how many entries waited behind the last piece that caught up of the
/// build that runs. Contracts see the core, and these.
///
/// To let it go lets the table go, and with it the pool and the spools of a build that runs: [`Kept::close`] hands the pool back with their pages.
pub struct Kept {
    /// It is there but for the time that a call works on it.
    pub(crate) table: Option<UnnamedCounted>,
    pub(crate) decided: Option<Decided>,
    /// Since that piece. Events of their own may have fed and applied some of these entries.
    pub(crate) waited: Option<Waits>,
}

impl Drop for Kept {
    fn drop(self) {
        let Kept {
            table: _,
            decided: _,
            waited: _,
        } = self;
    }
}

impl Model for Kept {
    ghost use Rattle.std.specs.Prelude.{◌≡◌, true, is_some};
    ghost use Rattle.kept_table.specs.KeptTables.{KeptValue, table_in};

    ghost Value = { KeptValue };

    ghost view = { λ kept. record { core = table_in kept.table; decided = kept.decided; waited = kept.waited } };

    ghost invariant = { λ kept. is_some kept.table ≡ true };
}

impl Kept {
    /// A table over these rows, with no index and no build. Where memory runs out the rows are handed back.
    pub fn new(alloc: Global, heap: Heap) -> Result<Kept, (Heap, Fault)>
        ensures ok { IfOk result (λ kept. kept ≡ record { core = new_table heap.state; decided = None; waited = None }) }
        ensures handed_back { IfErr result (λ back. back.0 ≡ heap) }
        ensures memory { IfErr result (λ back. back.1 ≡ Fault.Memory) }
    {
        match Parts::new(alloc, heap) {
            Ok(parts) => Ok(Kept {
                table: Some(opened::<Brand>(alloc, parts)),
                decided: None,
                waited: None,
            }),
            Err(back) => Err(back),
        }
    }

    /// Gives up what is left of a build, and hands its pool back.
    pub fn close(self) -> HandedBack
        ensures { IsHandedBack self.core result }
    {
        let Kept {
            table,
            decided: _,
            waited: _,
        } = self;
        match table {
            Some(table) => closed::<Brand>(table),
            None => unreachable!(),
        }
    }

    /// Does one event that neither starts a build nor ends one.
    pub fn step(&mut self, event: Event) -> Reply
        requires { KeepsBuild event }
        ensures step { Step self.old.core event result self.new.core }
        ensures full { HasPageCause WantedLeasedPage self.old.core event result }
        ensures decided { self.new.decided ≡ self.old.decided }
        ensures waited { self.new.waited ≡ self.old.waited }
    {
        let (table, reply) = stepped::<Brand>(taken(&mut self.table), event);
        self.table = Some(table);
        reply
    }
}

/// Takes the table out of its place, for a call to work on.
pub(crate) fn taken(table: &mut Option<UnnamedCounted>) -> UnnamedCounted
    requires { is_some table.old ≡ true }
    ensures { table.old ≡ Some result }
{
    match table.take() {
        Some(table) => table,
        None => unreachable!(),
    }
}

/// The table under a name, for as long as it takes to make it.
fn opened<T: TableRings>(alloc: Global, parts: Parts) -> UnnamedCounted
    requires pages { parts.pages ≡ T.pages }
    requires sides { parts.sides ≡ T.sides }
    ensures { result.core ≡ new_table parts.heap }
{
    Counted::<T>::new(alloc, parts).unname()
}

/// The table under a name, to be closed.
fn closed<T: TableRings>(table: UnnamedCounted) -> HandedBack
    requires pages { table.pages ≡ T.pages }
    requires sides { table.sides ≡ T.sides }
    ensures { IsHandedBack table.core result }
{
    table.open::<T>().close()
}

/// The table under a name, for one event.
fn stepped<T: TableRings>(table: UnnamedCounted, event: Event) -> (UnnamedCounted, Reply)
    requires pages { table.pages ≡ T.pages }
    requires sides { table.sides ≡ T.sides }
    requires keeps { KeepsBuild event }
    ensures step { Step table.core event result.1 result.0.core }
    ensures full { HasPageCause WantedLeasedPage table.core event result.1 }
{
    let mut named = table.open::<T>();
    let reply = named.step(event);
    (named.unname(), reply)
}
