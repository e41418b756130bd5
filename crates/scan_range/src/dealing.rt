ghost use Rattle.std.specs.Prelude.{◌≡◌, None, Some, IfOk, IfErr, MatchResult};
ghost use Rattle.scan_range.specs.Dealings.{dealing_refusal, dealt_ends};

use crate::Cuts;
use keybytes::Fault;
use std::alloc::Global;

/// How the pages of a table are dealt into ranges.
#[derive(Drop)]
pub enum Dealing {
    /// With the page behind each range; the last of them is the number of pages.
    Ends(Vec<u32>),
    /// Into so many ranges that differ by at most one page.
    Even(usize),
}

impl Dealing {
    /// Why so many pages aren't dealt so: [`Fault::BadRanges`]. Takes no memory.
    pub fn check(&self, pages: u32) -> Result<(), Fault>
        ensures { MatchResult result
            (λ _. dealing_refusal pages self.now ≡ None)
            (λ fault. dealing_refusal pages self.now ≡ Some fault) }
    {
        match self {
            Dealing::Ends(ends) => Cuts::check(pages, ends),
            Dealing::Even(ranges) => Cuts::check_even(*ranges),
        }
    }

    /// So many pages, dealt into ranges, where nothing refuses it.
    pub fn cuts(&self, alloc: Global, pages: u32) -> Result<Cuts, Fault>
        requires { dealing_refusal pages self.now ≡ None }
        ensures ok { IfOk result (λ cuts. cuts ≡ record { pages = pages; ends = dealt_ends pages self.now }) }
        ensures memory { IfErr result (λ fault. fault ≡ Fault.Memory) }
    {
        match self {
            Dealing::Ends(ends) => Cuts::new(pages, ends.iter().copied().collect(alloc)?),
            Dealing::Even(ranges) => Cuts::even(alloc, pages, *ranges),
        }
    }
}
