//! The loads of a build's indexes, lent to threads.
ghost use Rattle.std.specs.Prelude.{◌≡◌, length, IfErr, IfOk, OnOk, Some};
ghost use Rattle.std.specs.List.{AllZip};
ghost use Rattle.index_load.specs.IndexLoad.{HasRun};
ghost use Rattle.building.specs.Equipped.{HasRoomFor};
ghost use Rattle.building.specs.IndexLoads.{AreLent, CanLoadAll, HasLoadedAll, LoadsStopped, first_fault_of, without_loads};

use crate::beside::Building;
use crate::loads::{install, take_home, take_loads};
use index_load::IndexLoad;
use keybytes::Fault;
use page_workers::TableRings;
use run_spool::Spool;
use std::alloc::Global;
use std::marker::Model;
use std::mem::replace;
use std::snapshot::Snapshot;

/// A [`Building`] whose loads are lent, each with its spools.
///
/// Meanwhile nothing can be asked of it. It is no `Drop`, so nobody lets it go unless he forgets it, with the ends of rings that it has. Once all loads
/// are back, in the order in which they were lent, [`WithoutLoads::gather`] makes a [`Building`] of it again, also where some were refused.
pub struct WithoutLoads<S: Spool, T: TableRings> {
    /// The same without its spools, and spoiled.
    building: Building<S, T>,
    /// Room for the spools of all loads, and none of them.
    room: Vec<S>,
    was: Snapshot<Building<S, T>>,
    lent: Snapshot<Vec<IndexLoad<S>>>,
}

impl<S: Spool, T: TableRings> Model for WithoutLoads<S, T> {
    ghost use Rattle.building.specs.IndexLoads.{WithoutLoadsValue};

    ghost Value = { WithoutLoadsValue };

    ghost use Rattle.std.specs.Prelude.{◌≡◌, length};
    ghost use Rattle.building.specs.Equipped.{HasRoomFor};
    ghost use Rattle.building.specs.IndexLoads.{AreLent, without_loads};

    ghost view = { λ rest. record { was = rest.was.value; loads = rest.lent.value.items } };

    ghost invariant = { λ rest. AreLent rest.was.value rest.lent.value.items
        × (rest.building ≡ without_loads rest.was.value)
        × HasRoomFor (length rest.was.value.spools) rest.room };
}

impl<S: Spool, T: TableRings> Building<S, T> {
    /// Lends the loads of all indexes, each with its spools, to threads: they can go on side by side, without the lock and without the build. None of
    /// the indexes is in order yet. [`WithoutLoads::gather`] takes them back. Where there is no memory for them the build is spoiled.
    pub fn lend_loads(
        self,
        alloc: Global,
    ) -> Result<(Vec<IndexLoad<S>>, WithoutLoads<S, T>), (Building<S, T>, Fault)>
        requires { CanLoadAll self }
        ensures lent { IfOk result (λ lent. AreLent self lent.0.items) }
        ensures rest { IfOk result (λ lent. lent.1 ≡ record { was = self; loads = lent.0.items }) }
        ensures spoiled { IfErr result (λ refused. LoadsStopped self refused.1 refused.0) }
        ensures memory { IfErr result (λ refused. refused.1 ≡ Fault.Memory) }
    {
        let was = Snapshot::of(&self);
        let mut building = self;
        match building.give_loads(alloc) {
            Ok((loads, room)) => {
                let lent = Snapshot::of(&loads);
                let rest = WithoutLoads {
                    building,
                    room,
                    was,
                    lent,
                };
                Ok((loads, rest))
            }
            Err(fault) => Err((building, fault)),
        }
    }

    /// Gives the loads of all indexes, with all spools; the build is spoiled until they are back. With them comes an empty list that has room for
    /// all spools.
    fn give_loads(&mut self, alloc: Global) -> Result<(Vec<IndexLoad<S>>, Vec<S>), Fault>
        requires { CanLoadAll self.old }
        ensures lent { IfOk result (λ given. AreLent self.old given.0.items) }
        ensures left { OnOk result (self.new ≡ without_loads self.old) }
        ensures room { IfOk result (λ given. HasRoomFor (length self.old.spools) given.1) }
        ensures spoiled { IfErr result (λ fault. LoadsStopped self.old fault self.new) }
        ensures memory { IfErr result (λ fault. fault ≡ Fault.Memory) }
    {
        let Some(work) = &mut self.work else {
            unreachable!()
        };
        let loads = take_loads(alloc, &mut self.spools, work, self.workers.len());
        work.spoiled = Some(Fault::Memory);
        match loads {
            Ok(loads) => Ok((loads, replace(&mut self.spools, Vec::new(alloc)))),
            Err(fault) => Err(fault),
        }
    }

    /// Takes the loads of all indexes back, which were lent when the build was so.
    fn take_loads_back(
        &mut self,
        was: Snapshot<Building<S, T>>,
        lent: Snapshot<Vec<IndexLoad<S>>>,
        loads: Vec<IndexLoad<S>>,
        room: Vec<S>,
    ) -> Result<(), Fault>
        requires lent { AreLent was.value lent.value.items }
        requires left { self.old ≡ without_loads was.value }
        requires ran { AllZip HasRun lent.value.items loads.items }
        requires room { HasRoomFor (length was.value.spools) room }
        ensures loaded { OnOk result (HasLoadedAll was.value self.new) }
        ensures spoiled { IfErr result (λ fault. LoadsStopped was.value fault self.new) }
        ensures first { IfErr result (λ fault. first_fault_of loads.items ≡ Some fault) }
        ensures memory { IfErr result (λ fault. fault ≡ Fault.Memory) }
    {
        let Some(work) = &mut self.work else {
            unreachable!()
        };
        let mut loads = loads;
        self.spools = room;
        work.spoiled = take_home(&mut self.spools, &mut loads, self.workers.len());
        if let Some(fault) = work.spoiled {
            return Err(fault);
        }
        install(loads, &mut work.indexes);
        Ok(())
    }
}

impl<S: Spool, T: TableRings> WithoutLoads<S, T> {
    /// Takes the loads back, each run, in the order in which they were lent: each index has what its load made. Where some were refused, the fault of
    /// the first spoils the build, and some of the pairs may be lost. Takes no memory.
    pub fn gather(self, loads: Vec<IndexLoad<S>>) -> (Building<S, T>, Result<(), Fault>)
        requires { AllZip HasRun self.loads loads.items }
        ensures loaded { OnOk result.1 (HasLoadedAll self.was result.0) }
        ensures spoiled { IfErr result.1 (λ fault. LoadsStopped self.was fault result.0) }
        ensures first { IfErr result.1 (λ fault. first_fault_of loads.items ≡ Some fault) }
        ensures memory { IfErr result.1 (λ fault. fault ≡ Fault.Memory) }
    {
        let WithoutLoads {
            mut building,
            room,
            was,
            lent,
        } = self;
        let told = building.take_loads_back(was, lent, loads, room);
        (building, told)
    }
}
