ghost use Rattle.std.specs.Prelude.{◌≡◌, ◌<◌, ◌≤◌, ◌+◌, ◌*◌, ◌/◌, true, None, length, IfOk, IfErr, OnOk, MatchResult, List};
ghost use Rattle.keybytes.specs.Faults.{RefusedFor};
ghost use Rattle.scan_range.specs.Cuts.{cuts_refusal, are_cuts, end_at, even_ends, even_refusal, AreCovered};

use keybytes::Fault;
use std::alloc::Global;
use std::marker::Model;

/// The most ranges of a build.
pub const RANGES_MAX: usize = 256;

/// Where the ranges of a build end: the page behind each of them. A range may be empty.
#[derive(Drop)]
pub struct Cuts {
    pages: u32,
    ends: Vec<u32>,
}

impl Model for Cuts {
    ghost use Rattle.std.specs.Prelude.{◌≡◌, true};
    ghost use Rattle.scan_range.specs.Cuts.{CutsValue, are_cuts};

    ghost Value = { CutsValue };

    ghost view = { λ cuts. record { pages = cuts.pages; ends = cuts.ends.items } };

    ghost invariant = { λ cuts. are_cuts cuts.pages cuts.ends.items ≡ true };
}

/// Whether no end lies below the one before it, and the last is that number of pages.
fn end_at(pages: u32, ends: &[u32]) -> bool
    ensures { result ≡ end_at 0 pages ends.now }
{
    let mut low = 0;
    for &end in ends {
        if end < low {
            return false;
        }
        low = end;
    }
    low == pages
}

impl Cuts {
    /// Why [`Cuts::new`] would be refused. Takes no memory.
    pub fn check(pages: u32, ends: &[u32]) -> Result<(), Fault>
        ensures { MatchResult result (λ _. cuts_refusal pages ends.now ≡ None) (λ fault. cuts_refusal pages ends.now ≡ Some fault) }
    {
        let count = ends.len();
        if count == 0 || count > RANGES_MAX || !end_at(pages, ends) {
            return Err(Fault::BadRanges);
        }
        Ok(())
    }

    /// Why [`Cuts::even`] would be refused. Takes no memory.
    pub fn check_even(ranges: usize) -> Result<(), Fault>
        ensures { MatchResult result (λ _. even_refusal ranges ≡ None) (λ fault. even_refusal ranges ≡ Some fault) }
    {
        if ranges == 0 || ranges > RANGES_MAX {
            return Err(Fault::BadRanges);
        }
        Ok(())
    }

    /// Ranges of so many pages that end where `ends` says. [`Fault::BadRanges`] for none or more than [`RANGES_MAX`], ends
    /// that go down, or a last one that isn't the number of pages.
    pub fn new(pages: u32, ends: Vec<u32>) -> Result<Cuts, Fault>
        ensures ok { IfOk result (λ cuts. cuts ≡ record { pages = pages; ends = ends.items }) }
        ensures accepted { OnOk result (cuts_refusal pages ends.items ≡ None) }
        ensures refused { IfErr result (λ fault. cuts_refusal pages ends.items ≡ Some fault) }
    {
        Cuts::check(pages, &ends)?;
        Ok(Cuts { pages, ends })
    }

    /// So many ranges of nearly the same length. [`Fault::BadRanges`] for none or more than [`RANGES_MAX`].
    pub fn even(alloc: Global, pages: u32, ranges: usize) -> Result<Cuts, Fault>
        ensures ok { IfOk result (λ cuts. cuts ≡ record { pages = pages; ends = even_ends pages ranges }) }
        ensures accepted { OnOk result (even_refusal ranges ≡ None) }
        ensures refused { IfErr result (RefusedFor (even_refusal ranges)) }
    {
        Cuts::check_even(ranges)?;
        let mut ends = Vec::with_capacity(alloc, ranges)?;
        for range in 0..ranges as u64 {
            let end = pages as u64 * (range + 1) / ranges as u64;
            ends.push_reserved(end as u32);
        }
        Ok(Cuts { pages, ends })
    }

    /// The number of pages.
    pub fn pages(&self) -> u32
        ensures { result ≡ self.now.pages }
    {
        self.pages
    }

    /// The page behind each range.
    pub fn ends(&self) -> &[u32]
        ensures ends { result.now ≡ self.now.ends }
        ensures cuts { are_cuts self.now.pages self.now.ends ≡ true }
    {
        self.ends.as_slice()
    }

    /// Does nothing: its clause tells what all cuts keep.
    pub fn laws(&self)
        ensures { AreCovered self.now.pages self.now.ends }
    {
        let _ends = &self.ends;
    }
}
