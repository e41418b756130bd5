ghost use Rattle.std.specs.Prelude.{◌≡◌, IfOk, OnErr};
ghost use Rattle.kept_table.specs.Counts.{count_after};

use builder_core::Reply;
use keybytes::Fault;

/// How many pages the build that was started last reads, and how many it has copied.
#[derive(Clone, Copy)]
pub(crate) struct PageCount {
    pub(crate) all: u32,
    pub(crate) copied: u32,
}

impl PageCount {
    /// The same once that was replied.
    pub(crate) fn after(self, reply: &Reply) -> PageCount
        ensures { result ≡ count_after self reply.now }
    {
        match reply {
            Reply::Scanned { .. } => PageCount {
                all: self.all,
                copied: self.copied.saturating_add(1),
            },
            _ => self,
        }
    }

    /// The same once a start was answered so.
    pub(crate) fn at_start(self, started: &Result<u32, Fault>) -> PageCount
        ensures fresh { IfOk started.now (λ pages. result ≡ record { all = pages; copied = 0 }) }
        ensures unchanged { OnErr started.now (result ≡ self) }
    {
        match started {
            Ok(pages) => PageCount {
                all: *pages,
                copied: 0,
            },
            Err(_) => self,
        }
    }
}
