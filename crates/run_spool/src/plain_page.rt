use crate::PageOfPairs;
use crate::area::{FIXED_SIZE, read_pair, seek, write_pair};
use crate::marks::Marks;
use keybytes::{Fault, Key, Pair, Rid};
use spool_ledger::{PAGE_SIZE, Page};
use std::alloc::Global;
use std::marker::Model;

/// Pairs on a leased page, each with its whole key. Contracts see the list of the pairs, and how many bytes behind them are free.
///
/// A cursor keeps where a pair begins: reading a page in order takes no walk.
#[derive(Drop)]
pub struct PlainPage {
    page: Page,
    marks: Marks,
}

impl Model for PlainPage {
    ghost use Rattle.run_spool.specs.Pages.{PageValue};

    ghost Value = { PageValue };

    ghost use Rattle.run_spool.specs.PlainPages.{IsPage, page_value};

    ghost view = { λ p. page_value p.page.bytes.value p.marks };

    ghost invariant = { λ p. IsPage p.page.bytes.value p.marks };
}

impl PageOfPairs for PlainPage {
    ghost use Rattle.run_spool.specs.PlainPages.{plain_size};
    ghost use Rattle.spool_ledger.specs.declared.kind.SpoolKind.TheVariants.{Plain};
    ghost use Rattle.std.proofs.Common.{arith};

    ghost value = { λ page. page };

    ghost kind = { Plain };

    ghost pair_size = { plain_size };

    ghost takes_bytes = { λ before pair. Prim.omega arith };

    fn new(_alloc: Global, mut page: Page, pair: &Pair) -> PlainPage {
        let size = FIXED_SIZE + pair.key.bytes().len();
        write_pair(&mut page.bytes, 0, pair);
        let marks = Marks {
            start: 0,
            end: size,
            count: 1,
            cursor: 0,
            offset: 0,
        };
        PlainPage { page, marks }
    }

    fn len(&self) -> usize {
        self.marks.count
    }

    fn push(&mut self, _last: &Key, pair: &Pair) -> bool {
        let size = FIXED_SIZE + pair.key.bytes().len();
        if PAGE_SIZE - self.marks.end < size {
            return false;
        }
        write_pair(&mut self.page.bytes, self.marks.end, pair);
        self.marks.end += size;
        self.marks.count += 1;
        true
    }

    fn read(&mut self, n: usize, key: &mut Key) -> Result<Rid, Fault> {
        let page = &self.page;
        let bytes: &[u8; PAGE_SIZE] = &page.bytes;
        let offset = seek(bytes, self.marks, n);
        self.marks.cursor = n;
        self.marks.offset = offset;
        read_pair(bytes, offset, key)
    }

    fn free_front(&mut self, n: usize) {
        let offset = seek(&self.page.bytes, self.marks, n);
        self.marks.start = offset;
        self.marks.count -= n;
        self.marks.offset = offset;
        self.marks.cursor = 0;
    }

    fn into_page(self) -> Page {
        self.page
    }
}
