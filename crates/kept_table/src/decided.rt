//! What a switch decided, kept beside the table.
ghost use Rattle.std.specs.Prelude.{◌≡◌, None, Some, length, slice_get, IfOk, IfErr, IfSome, MatchOption};
ghost use Rattle.keybytes.specs.Rows.{row_refusal};
ghost use Rattle.build_events.specs.Verdicts.{HaveSharedKeys};
ghost use Rattle.kept_table.specs.Decisions.{AreSharedCells, IsNotShared, specs_in, verdicts_in};

use crate::Kept;
use heap_log::{Outcome, Verdicts};
use keybytes::{Cell, Fault, KeySpec};
use std::marker::Model;

/// What makes the keys of the indexes of a build, and what became of each.
#[derive(Drop)]
pub(crate) struct Decided {
    specs: Vec<KeySpec>,
    verdicts: Verdicts,
}

impl Model for Decided {
    ghost use Rattle.build_events.specs.Verdicts.{HaveSharedKeys};
    ghost use Rattle.kept_table.specs.KeptTables.{DecidedValue};

    ghost Value = { DecidedValue };

    ghost view = { λ decided. record { specs = decided.specs.items; verdicts = decided.verdicts } };

    ghost invariant = { λ decided. HaveSharedKeys decided.specs.items decided.verdicts };
}

impl Decided {
    pub(crate) fn new(specs: Vec<KeySpec>, verdicts: Verdicts) -> Decided
        requires { HaveSharedKeys specs.items verdicts }
        ensures { result ≡ record { specs = specs.items; verdicts = verdicts } }
    {
        Decided { specs, verdicts }
    }

    /// What became of the index.
    fn verdict(&self, index: usize) -> Option<&Outcome>
        ensures { MatchOption result (slice_get self.now.verdicts index ≡ None) (λ verdict. slice_get self.now.verdicts index ≡ Some verdict.now) }
    {
        self.verdicts.as_slice().get(index)
    }

    /// What makes its keys.
    fn spec(&self, index: usize) -> Option<&KeySpec>
        ensures { MatchOption result (slice_get self.now.specs index ≡ None) (λ spec. slice_get self.now.specs index ≡ Some spec.now) }
    {
        self.specs.as_slice().get(index)
    }

    /// The columns of the key for which it was refused, if it was.
    fn shared_cells(&self, index: usize) -> Result<Option<Vec<Cell>>, Fault>
        ensures ok { IfOk result (λ told. MatchOption told
            (IsNotShared (slice_get self.now.verdicts index))
            (λ cells. AreSharedCells (slice_get self.now.specs index) (slice_get self.now.verdicts index) cells.items)) }
        ensures row { IfOk result (λ told. IfSome told (λ cells. row_refusal cells.items ≡ None)) }
        ensures memory { IfErr result (λ fault. fault ≡ Fault.Memory) }
    {
        let _kept = &self.specs;
        match self.verdict(index) {
            Some(Outcome::Shared { key, .. }) => match self.spec(index) {
                Some(spec) => {
                    // An index has a column at least, and so few that they are a row.
                    let _columns = spec.columns();
                    Ok(Some(spec.cells(key)?))
                }
                None => unreachable!(),
            },
            Some(Outcome::Ready(_)) | None => Ok(None),
        }
    }
}

impl Kept {
    /// On how many indexes the newest switch decided.
    pub fn decided(&self) -> usize
        ensures { result ≡ length (verdicts_in self.now.decided) }
    {
        match &self.decided {
            Some(decided) => decided.verdicts.as_slice().len(),
            None => 0,
        }
    }

    /// What the newest switch decided of that index of its build.
    pub fn verdict(&self, index: usize) -> Option<&Outcome>
        ensures { MatchOption result
            (slice_get (verdicts_in self.now.decided) index ≡ None)
            (λ verdict. slice_get (verdicts_in self.now.decided) index ≡ Some verdict.now) }
    {
        match &self.decided {
            Some(decided) => decided.verdict(index),
            None => None,
        }
    }

    /// The columns of the key that rows share, where the newest switch refused that index of its build.
    pub fn shared_cells(&self, index: usize) -> Result<Option<Vec<Cell>>, Fault>
        ensures ok { IfOk result (λ told. MatchOption told
            (IsNotShared (slice_get (verdicts_in self.now.decided) index))
            (λ cells. AreSharedCells (slice_get (specs_in self.now.decided) index) (slice_get (verdicts_in self.now.decided) index) cells.items)) }
        ensures row { IfOk result (λ told. IfSome told (λ cells. row_refusal cells.items ≡ None)) }
        ensures memory { IfErr result (λ fault. fault ≡ Fault.Memory) }
    {
        match &self.decided {
            Some(decided) => decided.shared_cells(index),
            None => Ok(None),
        }
    }
}
