ghost use Rattle.std.specs.Prelude.{◌≡◌, ◌<◌, ◌⊎◌, [], All, IfOk, IfErr, OnOk, OnErr, map, length, true, false};
ghost use Rattle.run_spool.specs.Spools.{AreSorted, NoneFreed, NoPageOnlyIf};
ghost use Rattle.run_maker.specs.FullSpools.{HasFullOf};
ghost use Rattle.run_maker.specs.Making.{AreHeld, AreHeldWithCopy, AreReady, Takes, TakesPart, Seals};
ghost use Rattle.run_maker.specs.Spooling.{MemoryOnlyIf};

use crate::images::add_image;
use crate::open_run::OpenRun;
use crate::sealing::close_all;
use crate::{RunSort, StdSort};
use heap_table::PageImage;
use keybytes::{Fault, KeySpec, Schema};
use run_spool::Spool;
use std::alloc::Global;
use std::marker::Model;

/// Makes the pairs of rows, for each index its own, and spools them in runs. Contracts see the pairs of each index that are in no
/// run yet.
///
/// Each call that spools is lent the spool of each index, in the order of the indexes. After a refusal a part of the pairs is
/// spooled, and maker and spools are fit only to be given up.
pub struct Maker {
    schema: Schema,
    specs: Vec<KeySpec>,
    begun: Vec<OpenRun>,
}

impl Drop for Maker {
    fn drop(self) {
        let Maker {
            schema: _,
            specs: _,
            begun: _,
        } = self;
    }
}

impl Model for Maker {
    ghost use Rattle.std.specs.Prelude.{◌≡◌, All, length};
    ghost use Rattle.run_maker.specs.Making.{MakerValue};

    ghost Value = { MakerValue };

    ghost view = { λ maker. record { schema = maker.schema; specs = maker.specs.items; begun = maker.begun.items } };

    ghost invariant = { λ maker. All (λ spec. spec.kinds ≡ maker.schema) maker.specs.items
        × (length maker.begun.items ≡ length maker.specs.items) };
}

impl Maker {
    /// A maker of the pairs of those indexes, for rows of these columns.
    pub fn new(alloc: Global, schema: Schema, specs: Vec<KeySpec>) -> Result<Maker, Fault>
        requires { All (λ spec. spec.kinds ≡ schema) specs.items }
        ensures made { IfOk result (λ maker. maker ≡ record { schema = schema; specs = specs.items; begun = map (λ _. []) specs.items }) }
        ensures memory { IfErr result (λ fault. fault ≡ Fault.Memory) }
    {
        let mut begun = Vec::with_capacity(alloc, specs.len())?;
        for _ in 0..specs.len() {
            begun.push_reserved(OpenRun::new(alloc));
        }
        Ok(Maker {
            schema,
            specs,
            begun,
        })
    }

    /// The columns of the rows that it takes.
    pub fn schema(&self) -> &Schema
        ensures { result.now ≡ self.now.schema }
    {
        &self.schema
    }

    /// Changes nothing: its clauses tell what every maker keeps.
    pub fn laws(&self)
        ensures specs { All (λ spec. spec.kinds ≡ self.now.schema) self.now.specs }
        ensures begun { length self.now.begun ≡ length self.now.specs }
        ensures short { All (λ begun. length begun < 4096) self.now.begun }
    {
        for begun in &self.begun {
            begun.laws();
        }
    }

    /// Takes a copy of a page: makes a pair of each row for each index that takes it, and spools those that make a run.
    pub fn take<S: Spool>(&mut self, image: PageImage, spools: &mut [S]) -> Result<(), Fault>
        requires schema { image.schema ≡ self.old.schema }
        requires spools { length spools.old ≡ length self.old.specs }
        requires ready { AreReady (map S.runs spools.old) (map S.open_run spools.old) }
        ensures taken { OnOk result (Takes self.old.specs image
            (record { runs = map S.runs spools.old; begun = self.old.begun }) (record { runs = map S.runs spools.new; begun = self.new.begun })) }
        ensures ready { OnOk result (AreReady (map S.runs spools.new) (map S.open_run spools.new)) }
        ensures sorted { All AreSorted (map S.runs spools.old) → All AreSorted (map S.runs spools.new) }
        ensures intact { All (NoneFreed S.is_intact S.runs) spools.old → All (NoneFreed S.is_intact S.runs) spools.new }
        ensures stakes { map S.stake spools.new ≡ map S.stake spools.old }
        ensures schema { self.new.schema ≡ self.old.schema }
        ensures specs { self.new.specs ≡ self.old.specs }
        ensures fault { IfErr result (λ fault. (fault ≡ Fault.NoPage) ⊎ (fault ≡ Fault.Memory)) }
        ensures full { IfErr result (NoPageOnlyIf (HasFullOf S.is_full S.runs S.open_run 4096 (map S.runs spools.old)
            (AreHeldWithCopy self.old.specs image (record { runs = map S.runs spools.old; begun = self.old.begun })) spools.new)) }
        ensures want { IfErr result (MemoryOnlyIf (AreReady (map S.runs spools.new) (map S.open_run spools.new))) }
        ensures part { IfErr result (MemoryOnlyIf (TakesPart self.old.specs image
            (record { runs = map S.runs spools.old; begun = self.old.begun }) (record { runs = map S.runs spools.new; begun = self.new.begun }))) }
    {
        self.take_with(image, spools, &mut StdSort)
    }

    /// As [`Maker::take`], with runs sorted by the sort that is lent.
    pub fn take_with<S: Spool, Q: RunSort>(
        &mut self,
        image: PageImage,
        spools: &mut [S],
        sort: &mut Q,
    ) -> Result<(), Fault>
        requires schema { image.schema ≡ self.old.schema }
        requires spools { length spools.old ≡ length self.old.specs }
        requires ready { AreReady (map S.runs spools.old) (map S.open_run spools.old) }
        ensures taken { OnOk result (Takes self.old.specs image
            (record { runs = map S.runs spools.old; begun = self.old.begun }) (record { runs = map S.runs spools.new; begun = self.new.begun })) }
        ensures ready { OnOk result (AreReady (map S.runs spools.new) (map S.open_run spools.new)) }
        ensures sorted { All AreSorted (map S.runs spools.old) → All AreSorted (map S.runs spools.new) }
        ensures intact { All (NoneFreed S.is_intact S.runs) spools.old → All (NoneFreed S.is_intact S.runs) spools.new }
        ensures stakes { map S.stake spools.new ≡ map S.stake spools.old }
        ensures schema { self.new.schema ≡ self.old.schema }
        ensures specs { self.new.specs ≡ self.old.specs }
        ensures fault { IfErr result (λ fault. (fault ≡ Fault.NoPage) ⊎ (fault ≡ Fault.Memory)) }
        ensures full { IfErr result (NoPageOnlyIf (HasFullOf S.is_full S.runs S.open_run 4096 (map S.runs spools.old)
            (AreHeldWithCopy self.old.specs image (record { runs = map S.runs spools.old; begun = self.old.begun })) spools.new)) }
        ensures want { IfErr result (MemoryOnlyIf (AreReady (map S.runs spools.new) (map S.open_run spools.new))) }
        ensures part { IfErr result (MemoryOnlyIf (TakesPart self.old.specs image
            (record { runs = map S.runs spools.old; begun = self.old.begun }) (record { runs = map S.runs spools.new; begun = self.new.begun }))) }
    {
        image.laws();
        add_image(
            &image,
            &self.schema,
            &self.specs,
            &mut self.begun,
            spools,
            sort,
        )
    }

    /// Spools what is in no run yet.
    pub fn seal<S: Spool>(&mut self, spools: &mut [S]) -> Result<(), Fault>
        requires spools { length spools.old ≡ length self.old.specs }
        requires ready { AreReady (map S.runs spools.old) (map S.open_run spools.old) }
        ensures sealed { OnOk result (Seals (record { runs = map S.runs spools.old; begun = self.old.begun }) (map S.runs spools.new)) }
        ensures none_open { OnOk result (All (λ begun. begun ≡ []) self.new.begun) }
        ensures ready { OnOk result (AreReady (map S.runs spools.new) (map S.open_run spools.new)) }
        ensures sorted { All AreSorted (map S.runs spools.old) → All AreSorted (map S.runs spools.new) }
        ensures intact { All (NoneFreed S.is_intact S.runs) spools.old → All (NoneFreed S.is_intact S.runs) spools.new }
        ensures stakes { map S.stake spools.new ≡ map S.stake spools.old }
        ensures schema { self.new.schema ≡ self.old.schema }
        ensures specs { self.new.specs ≡ self.old.specs }
        ensures no_page { IfErr result (λ fault. fault ≡ Fault.NoPage) }
        ensures full { OnErr result (HasFullOf S.is_full S.runs S.open_run 1 (map S.runs spools.old)
            (AreHeld (record { runs = map S.runs spools.old; begun = self.old.begun })) spools.new) }
    {
        self.seal_with(spools, &mut StdSort)
    }

    /// As [`Maker::seal`], with runs sorted by the sort that is lent.
    pub fn seal_with<S: Spool, Q: RunSort>(
        &mut self,
        spools: &mut [S],
        sort: &mut Q,
    ) -> Result<(), Fault>
        requires spools { length spools.old ≡ length self.old.specs }
        requires ready { AreReady (map S.runs spools.old) (map S.open_run spools.old) }
        ensures sealed { OnOk result (Seals (record { runs = map S.runs spools.old; begun = self.old.begun }) (map S.runs spools.new)) }
        ensures none_open { OnOk result (All (λ begun. begun ≡ []) self.new.begun) }
        ensures ready { OnOk result (AreReady (map S.runs spools.new) (map S.open_run spools.new)) }
        ensures sorted { All AreSorted (map S.runs spools.old) → All AreSorted (map S.runs spools.new) }
        ensures intact { All (NoneFreed S.is_intact S.runs) spools.old → All (NoneFreed S.is_intact S.runs) spools.new }
        ensures stakes { map S.stake spools.new ≡ map S.stake spools.old }
        ensures schema { self.new.schema ≡ self.old.schema }
        ensures specs { self.new.specs ≡ self.old.specs }
        ensures no_page { IfErr result (λ fault. fault ≡ Fault.NoPage) }
        ensures full { OnErr result (HasFullOf S.is_full S.runs S.open_run 1 (map S.runs spools.old)
            (AreHeld (record { runs = map S.runs spools.old; begun = self.old.begun })) spools.new) }
    {
        close_all(&mut self.begun, spools, sort)
    }

    /// Whether some pairs are in no run yet.
    pub fn has_open_run(&self) -> bool
        ensures some { result ≡ true → All (λ begun. begun ≡ []) self.now.begun → ⊥ }
        ensures none { result ≡ false → All (λ begun. begun ≡ []) self.now.begun }
    {
        for begun in &self.begun {
            if !begun.is_empty() {
                return true;
            }
        }
        false
    }
}
