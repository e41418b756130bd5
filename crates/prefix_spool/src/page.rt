use crate::area::{read_pair, seek, shared_with, size_of_pair, write_pair};
use crate::marks::Marks;
use keybytes::{Fault, Key, Pair, Rid};
use run_spool::PageOfPairs;
use spool_ledger::{PAGE_SIZE, Page};
use std::alloc::Global;
use std::marker::Model;

/// Pairs on a leased page, each written behind the key of the one before it. Contracts see the list of the pairs that aren't
/// freed, and how many bytes behind them are free. The bytes of freed pairs stay, since keys behind them begin like theirs.
///
/// A cursor keeps where a pair begins, and the key before it: reading a page in order takes no walk.
#[derive(Drop)]
pub struct PrefixPage {
    page: Page,
    marks: Marks,
    /// The key before the cursor's pair.
    before: Key,
}

impl Model for PrefixPage {
    ghost use Rattle.run_spool.specs.Pages.{PageValue};

    ghost Value = { PageValue };

    ghost use Rattle.prefix_spool.specs.PrefixPages.{IsPage, page_value};

    ghost view = { λ p. page_value p.page.bytes.value p.marks };

    ghost invariant = { λ p. IsPage p.page.bytes.value p.marks p.before };
}

impl PageOfPairs for PrefixPage {
    ghost use Rattle.std.proofs.Common.{arith};
    ghost use Rattle.prefix_spool.specs.PrefixBytes.{prefix_size};
    ghost use Rattle.spool_ledger.specs.declared.kind.SpoolKind.TheVariants.{Prefix};

    ghost value = { λ page. page };

    ghost kind = { Prefix };

    ghost pair_size = { prefix_size };

    ghost takes_bytes = { λ before pair. Prim.omega arith };

    fn new(alloc: Global, mut page: Page, pair: &Pair) -> PrefixPage {
        let size = size_of_pair(0, pair);
        write_pair(&mut page.bytes, 0, 0, pair);
        let marks = Marks {
            end: size,
            count: 1,
            freed: 0,
            cursor: 0,
            offset: 0,
        };
        PrefixPage {
            page,
            marks,
            before: Key::new(alloc),
        }
    }

    fn len(&self) -> usize {
        self.marks.count - self.marks.freed
    }

    fn push(&mut self, last: &Key, pair: &Pair) -> bool {
        let shared = shared_with(last, pair);
        let size = size_of_pair(shared, pair);
        if PAGE_SIZE - self.marks.end < size {
            return false;
        }
        write_pair(&mut self.page.bytes, self.marks.end, shared, pair);
        self.marks.end += size;
        self.marks.count += 1;
        self.marks.cursor = 0;
        self.marks.offset = 0;
        self.before.cut(0);
        true
    }

    fn read(&mut self, n: usize, key: &mut Key) -> Result<Rid, Fault> {
        let page = &self.page;
        let bytes: &[u8; PAGE_SIZE] = &page.bytes;
        let place = self.marks.freed + n;
        let Ok(offset) = seek(bytes, self.marks, place, &mut self.before) else {
            self.marks.cursor = 0;
            self.marks.offset = 0;
            self.before.cut(0);
            return Err(Fault::Memory);
        };
        self.marks.cursor = place;
        self.marks.offset = offset;
        read_pair(bytes, offset, &self.before, key)
    }

    fn free_front(&mut self, n: usize) {
        self.marks.freed += n;
    }

    fn into_page(self) -> Page {
        self.page
    }
}
