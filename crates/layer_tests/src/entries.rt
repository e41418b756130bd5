//! A side-file, and the index that its entries are applied to.
ghost use Rattle.std.specs.Prelude.{◌≡◌};

mod cases;

use crate::desk::{Desk, first_other};
use btree::Tree;
pub use cases::CASES;
use catch_up::{Built, Pace, apply, apply_batch};
use chunk_list::{CHUNK, ChunkQueue};
use keybytes::{Fault, Key, Rid};
use side_file::{Entry, EntryEnd, Op, SideFile};
use std::alloc::Global;
use std::sync::atomic::{AtomicUsize, Ordering};

/// An entry in short: the number of its build, what it does, the byte of its key and the page of its RID.
pub type Short = (u64, Op, u8, u32);

/// Counts what a batch tells of itself.
struct Counted {
    count: AtomicUsize,
}

impl Drop for Counted {
    fn drop(self) {
        let Counted { count: _ } = self;
    }
}

impl Pace for Counted {
    fn applied(&self, count: usize) {
        self.count.fetch_add(count, Ordering::Relaxed);
    }
}

/// A call, with what it is to answer.
pub enum Step {
    Append(&'static [Short]),
    /// Feeds at most so many, and that many are fed.
    Feed(usize, usize),
    /// The same, as one batch.
    FeedBatch(usize, usize),
    Reset,
    /// How many are fed and left, and how many wait in the ring.
    Counts(usize, usize, usize),
    /// Takes these entries out of the ring.
    Take(&'static [Short]),
    /// Applies at most so many, and that many are taken.
    Apply(usize, usize),
    /// Applies all that wait as one batch: that many are taken, and that many of them are told to be applied.
    ApplyBatch(usize, usize),
    /// The pages of the pairs, in order.
    Pages(&'static [u32]),
}

/// A side-file with the other end of its ring, and an index.
pub struct Bench {
    side: SideFile,
    end: EntryEnd,
    built: Built,
    alloc: Global,
    ghost paired: { side.end.ring ≡ end.ring },
}

impl Drop for Bench {
    fn drop(self) {
        let Bench {
            side: _,
            end: _,
            built: _,
            alloc: _,
        } = self;
    }
}

/// The first step that an empty side-file and an index of build 7 answer otherwise.
pub fn told(alloc: Global, steps: &[Step]) -> Result<Option<usize>, Fault> {
    let (side, end) = SideFile::new(alloc)?;
    let mut bench = Bench {
        side,
        end,
        built: Built::new(7, Tree::new(alloc)),
        alloc,
    };
    first_other(&mut bench, steps)
}

fn entry(alloc: Global, short: Short) -> Result<Entry, Fault> {
    let (build, op, byte, page) = short;
    let mut key = Key::new(alloc);
    key.add(&[byte])?;
    let rid = Rid { page, slot: 1 };
    Ok(Entry {
        build,
        op,
        key,
        rid,
    })
}

fn has_pages(tree: &Tree, pages: &[u32]) -> bool {
    let mut left = pages.iter();
    for pair in tree.iter() {
        if left.next() != Some(&pair.rid.page) {
            return false;
        }
    }
    left.next().is_none()
}

impl Desk for Bench {
    type Step = Step;

    fn does(&mut self, step: &Step) -> Result<bool, Fault> {
        match *step {
            Step::Append(entries) => self.append_all(entries),
            Step::Feed(most, fed) => Ok(self.side.feed(most) == fed),
            Step::FeedBatch(most, fed) => Ok(self.feed_batch(most)? == fed),
            Step::Reset => Ok(self.reset()),
            Step::Counts(fed, left, waiting) => Ok(self.counts() == (fed, left, waiting)),
            Step::Take(entries) => self.takes_all(entries),
            Step::Apply(most, taken) => Ok(self.apply(most)? == taken),
            Step::ApplyBatch(taken, told) => Ok(self.apply_batch()? == (taken, told)),
            Step::Pages(pages) => Ok(has_pages(self.built.tree(), pages)),
        }
    }
}

impl Bench {
    /// What is refused for want of memory is tried once more: it has lost nothing.
    fn append(&mut self, short: Short) -> Result<(), Fault> {
        let entry = entry(self.alloc, short)?;
        if self.side.reserve(1).is_err() {
            self.side.reserve(1)?;
        }
        self.side.append(entry);
        Ok(())
    }

    fn append_all(&mut self, entries: &[Short]) -> Result<bool, Fault> {
        for short in entries {
            self.append(*short)?;
        }
        Ok(true)
    }

    fn reset(&mut self) -> bool {
        self.side.reset();
        true
    }

    fn counts(&mut self) -> (usize, usize, usize) {
        let waiting = self.side.beside(&mut self.end);
        (self.side.fed(), self.side.left(), waiting)
    }

    fn takes_all(&mut self, entries: &[Short]) -> Result<bool, Fault> {
        for short in entries {
            if !self.takes(&entry(self.alloc, *short)?) {
                return Ok(false);
            }
        }
        Ok(true)
    }

    fn takes(&mut self, entry: &Entry) -> bool {
        self.end.look() > 0 && self.end.pop() == *entry
    }

    /// What is refused for want of memory is tried once more.
    fn apply(&mut self, most: usize) -> Result<usize, Fault> {
        match apply(&mut self.built, &mut self.end, most) {
            Err(_) => apply(&mut self.built, &mut self.end, most),
            taken => taken,
        }
    }

    fn feed_batch(&mut self, most: usize) -> Result<usize, Fault> {
        let Some(room) = most.checked_add(2 * CHUNK) else {
            return Err(Fault::Memory);
        };
        let mut batch = ChunkQueue::new(self.alloc);
        batch.reserve(room)?;
        Ok(self.side.feed_batch(most, batch))
    }

    fn apply_batch(&mut self) -> Result<(usize, usize), Fault> {
        self.end.look();
        let told = Counted {
            count: AtomicUsize::new(0),
        };
        let taken = apply_batch(self.alloc, &mut self.built, &mut self.end, &told)?;
        Ok((taken, told.count.load(Ordering::Relaxed)))
    }
}
