use crate::table::Watch;
use crew::{Gate, Point};
use std::sync::atomic::{AtomicU64, Ordering};
use std::sync::{Mutex, Wait};

/// So many pages are scanned before more is shown.
const PAGES_OF_A_LINE: u64 = 64;

/// The gate of a build, which shows how far it is.
#[derive(Drop)]
pub struct Watching<'e, A: Wait, V: Watch + Drop> {
    rt: &'e A,
    watch: Mutex<V>,
    /// How many pages the table has.
    pages: u64,
    scanned: AtomicU64,
    /// How many indexes have their pairs in order.
    loaded: AtomicU64,
}

impl<'e, A: Wait, V: Watch + Drop> Watching<'e, A, V> {
    pub fn new(rt: &'e A, watch: V, pages: u32) -> Watching<'e, A, V> {
        Watching {
            rt,
            watch: Mutex::new(watch),
            pages: u64::from(pages),
            scanned: AtomicU64::new(0),
            loaded: AtomicU64::new(0),
        }
    }

    /// The build has ended.
    pub fn end(self) {
        let mut watch = self.watch.into_inner();
        watch.clear();
    }

    fn show(&self, scanned: u64, loaded: u64) {
        let mut watch = self.watch.lock(self.rt);
        watch.show_build(scanned, self.pages, loaded);
    }
}

impl<'e, A: Wait, V: Watch + Drop> Gate for Watching<'e, A, V> {
    fn at(&self, point: Point) {
        match point {
            Point::Scanned { .. } => {
                let scanned = self
                    .scanned
                    .fetch_add(1, Ordering::SeqCst)
                    .saturating_add(1);
                if scanned % PAGES_OF_A_LINE == 0 {
                    self.show(scanned, 0);
                }
            }
            Point::Loaded { .. } => {
                let loaded = self.loaded.fetch_add(1, Ordering::SeqCst).saturating_add(1);
                self.show(self.pages, loaded);
            }
            Point::Sealed { .. } | Point::Try { .. } => {}
        }
    }
}
