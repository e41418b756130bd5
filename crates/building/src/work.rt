//! The work of a build.
ghost use Rattle.std.specs.List.{position};
ghost use Rattle.building.specs.BuildingValue.{fresh, fresh_index, IndexValue};
ghost use Rattle.std.specs.Prelude.{◌≡◌, ◌<◌, replicate, is_some, not, length, slice_get, None, Some, IfOk, IfErr, MatchResult};

use crate::index_work::IndexWork;
use keybytes::{Fault, KeySpec};
use std::alloc::Global;
use std::marker::Model;

/// The work of a build.
pub struct Work {
    pub(crate) build: u64,
    pub(crate) specs: Vec<KeySpec>,
    /// Whether its workers have handed their spools over to the indexes, which can be loaded then.
    pub(crate) handed: bool,
    pub(crate) indexes: Vec<IndexWork>,
    pub(crate) spoiled: Option<Fault>,
}

impl Drop for Work {
    fn drop(self) {
        let Work {
            build: _,
            specs: _,
            handed: _,
            indexes: _,
            spoiled: _,
        } = self;
    }
}

impl Model for Work {
    ghost use Rattle.building.specs.BuildingValue.{WorkValue};

    ghost Value = { WorkValue };

    ghost view = { λ work. record {
      build = work.build;
      specs = work.specs.items;
      handed = work.handed;
      indexes = work.indexes.items;
      spoiled = work.spoiled;
    } };
}

impl Work {
    /// The build with that number, of which nothing is done.
    pub fn new(alloc: Global, build: u64, specs: Vec<KeySpec>) -> Result<Work, Fault>
        ensures ok { IfOk result (λ work. work ≡ fresh build specs.items) }
        ensures memory { IfErr result (λ fault. fault ≡ Fault.Memory) }
    {
        Ok(Work {
            indexes: fresh_indexes(alloc, specs.len())?,
            build,
            specs,
            handed: false,
            spoiled: None,
        })
    }

    /// The number of the build.
    pub fn number(&self) -> u64
        ensures { result ≡ self.now.build }
    {
        self.build
    }

    /// What makes the keys of its indexes.
    pub fn specs(&self) -> &[KeySpec]
        ensures { result.now ≡ self.now.specs }
    {
        &self.specs
    }

    /// Why the build can't go on, if it can't.
    pub fn check(&self) -> Result<(), Fault>
        ensures { MatchResult result (λ _. self.now.spoiled ≡ None) (λ fault. self.now.spoiled ≡ Some fault) }
    {
        match self.spoiled {
            Some(fault) => Err(fault),
            None => Ok(()),
        }
    }

    /// Whether its indexes are being loaded.
    pub fn is_loading(&self) -> bool
        ensures { result ≡ self.now.handed }
    {
        self.handed
    }

    /// Whether the pairs of that index are in order.
    pub fn is_loaded(&self, index: usize) -> bool
        requires { index < length self.now.indexes }
        ensures { (it : IndexValue) → slice_get self.now.indexes index ≡ Some it → result ≡ is_some it.built }
    {
        self.indexes[index].built.is_some()
    }

    /// The lowest index whose pairs are not in order.
    pub fn first_unloaded(&self) -> Option<usize>
        ensures { result ≡ position (λ (index : IndexValue). not (is_some index.built)) self.now.indexes }
    {
        for index in 0..self.indexes.len() {
            if !self.is_loaded(index) {
                return Some(index);
            }
        }
        None
    }

    /// How many entries of its side-file were applied to that index.
    pub fn applied(&self, index: usize) -> usize
        requires { index < length self.now.indexes }
        ensures { (it : IndexValue) → slice_get self.now.indexes index ≡ Some it → result ≡ it.applied }
    {
        self.indexes[index].applied
    }

    /// The work on each of its indexes.
    pub fn indexes(&self) -> &[IndexWork]
        ensures { result.now ≡ self.now.indexes }
    {
        &self.indexes
    }

    /// The same, taken out.
    pub fn into_indexes(self) -> Vec<IndexWork>
        ensures { self.indexes ≡ result.items }
    {
        let Work {
            build: _,
            specs: _,
            handed: _,
            indexes,
            spoiled: _,
        } = self;
        indexes
    }
}

/// So many indexes on which nothing was done.
fn fresh_indexes(alloc: Global, count: usize) -> Result<Vec<IndexWork>, Fault>
    ensures ok { IfOk result (λ indexes. indexes.items ≡ replicate count fresh_index) }
    ensures memory { IfErr result (λ fault. fault ≡ Fault.Memory) }
{
    let mut indexes = Vec::with_capacity(alloc, count)?;
    for _ in 0..count {
        indexes.push_reserved(IndexWork {
            built: None,
            applied: 0,
        });
    }
    Ok(indexes)
}
