ghost use Rattle.std.specs.Prelude.{◌≡◌, ◌<◌, ◌≤◌, length, Some, None, IfOk, IfErr, OnOk, OnErr};
ghost use Rattle.scan_range.specs.Cuts.{AreCovered, range_of};
ghost use Rattle.scan_range.specs.Ranges.{at_start, next_of, is_done, are_done, advance_refusal, after_advance, AreRanges};

use crate::Cuts;
use keybytes::Fault;
use std::alloc::Global;
use std::marker::Model;

/// How far each range of a build is: the page that comes next in it.
pub struct Ranges {
    cuts: Cuts,
    next: Vec<u32>,
}

impl Drop for Ranges {
    fn drop(self) {
        let Ranges { cuts: _, next: _ } = self;
    }
}

impl Model for Ranges {
    ghost use Rattle.scan_range.specs.Ranges.{RangesValue, AreRanges};

    ghost Value = { RangesValue };

    ghost view = { λ ranges. record { pages = ranges.cuts.pages; ends = ranges.cuts.ends; next = ranges.next.items } };

    ghost invariant = { λ ranges. AreRanges (record { pages = ranges.cuts.pages; ends = ranges.cuts.ends; next = ranges.next.items }) };
}

impl Ranges {
    /// The ranges of these cuts, none of them begun.
    pub fn new(alloc: Global, cuts: Cuts) -> Result<Ranges, Fault>
        ensures ok { IfOk result (λ ranges. ranges ≡ at_start cuts) }
        ensures memory { IfErr result (λ fault. fault ≡ Fault.Memory) }
    {
        let ends = cuts.ends();
        let mut next = Vec::with_capacity(alloc, ends.len())?;
        let mut start = 0;
        for &end in ends {
            next.push_reserved(start);
            start = end;
        }
        Ok(Ranges { cuts, next })
    }

    /// The number of pages.
    pub fn pages(&self) -> u32
        ensures { result ≡ self.now.pages }
    {
        self.cuts.pages()
    }

    /// The number of ranges.
    pub fn len(&self) -> usize
        ensures { result ≡ length self.now.ends }
    {
        self.next.len()
    }

    /// The range that the page lies in.
    pub fn range_at(&self, page: u32) -> usize
        requires { page < self.now.pages }
        ensures value { range_of self.now.ends page ≡ Some result }
        ensures there { result < length self.now.ends }
    {
        self.cuts.ends().partition_point(|end| *end <= page)
    }

    /// The page that comes next in the range: the page behind it once the range is done.
    pub fn cur(&self, range: usize) -> u32
        requires { range < length self.now.ends }
        ensures { result ≡ next_of self.now range }
    {
        self.next[range]
    }

    /// Goes on to the range's page after that. [`Fault::RangeDone`] where no page is left, and nothing changes.
    pub fn advance(&mut self, range: usize) -> Result<(), Fault>
        requires { range < length self.old.ends }
        ensures ok { OnOk result (self.new ≡ after_advance self.old range) }
        ensures accepted { OnOk result (advance_refusal self.old range ≡ None) }
        ensures refused { IfErr result (λ fault. advance_refusal self.old range ≡ Some fault) }
        ensures err { OnErr result (self.new ≡ self.old) }
    {
        let end = self.cuts.ends()[range];
        let next = &mut self.next[range];
        if *next >= end {
            return Err(Fault::RangeDone);
        }
        *next += 1;
        Ok(())
    }

    /// Whether no page of the range is left.
    pub fn done(&self, range: usize) -> bool
        requires { range < length self.now.ends }
        ensures { result ≡ is_done self.now range }
    {
        self.cur(range) >= self.cuts.ends()[range]
    }

    /// Whether no page is left in any range.
    pub fn all_done(&self) -> bool
        ensures { result ≡ are_done self.now }
    {
        for range in 0..self.len() {
            if !self.done(range) {
                return false;
            }
        }
        true
    }

    /// Does nothing: its clauses tell what all ranges keep.
    pub fn laws(&self)
        ensures covered { AreCovered self.now.pages self.now.ends }
        ensures kept { AreRanges self.now }
    {
        let _next = &self.next;
    }
}
