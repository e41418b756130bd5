use crate::Watch;
use crew::{Gate, Opened, Point, Table};
use std::sync::{Mutex, Wait};

/// The gate of a build that somebody watches.
#[derive(Drop)]
pub struct Watching<'e, T: Opened, R: Wait, W: Watch + Drop> {
    rt: &'e R,
    table: &'e Table<T>,
    watch: Mutex<W>,
}

impl<'e, T: Opened, R: Wait, W: Watch + Drop> Watching<'e, T, R, W> {
    pub fn new(rt: &'e R, table: &'e Table<T>, watch: W) -> Watching<'e, T, R, W> {
        Watching {
            rt,
            table,
            watch: Mutex::new(watch),
        }
    }

    /// The build has ended.
    pub fn end(self) {
        let mut watch = self.watch.into_inner();
        watch.end();
    }
}

impl<'e, T: Opened, R: Wait, W: Watch + Drop> Gate for Watching<'e, T, R, W> {
    fn at(&self, point: Point) {
        let mut watch = self.watch.lock(self.rt);
        if watch.is_due(point) {
            watch.show(self.table.progress(self.rt));
        }
    }
}
