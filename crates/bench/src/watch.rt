use crate::course::{CATCH_UP, Course, LOAD, SCAN, START};
use crew::{Gate, Point};
use std::sync::atomic::Ordering;
use std::time::Clock;

/// Tells the course how far a build is, and holds nobody up.
#[derive(Drop)]
pub struct Watch<'a, R: Clock> {
    pub rt: &'a R,
    pub course: &'a Course,
    /// How many workers the build has.
    pub workers: usize,
}

impl<R: Clock> Gate for Watch<'_, R> {
    fn at(&self, point: Point) {
        let course = self.course;
        match point {
            Point::Scanned { .. } => {
                if course.step.load(Ordering::SeqCst) == START {
                    course.go_to(self.rt, SCAN);
                }
            }
            Point::Sealed { .. } => {
                let before = course.sealed.fetch_add(1, Ordering::SeqCst);
                if before.saturating_add(1) == self.workers as u64 {
                    course.go_to(self.rt, LOAD);
                }
            }
            Point::Try { n } => {
                course.tries.store(u64::from(n), Ordering::SeqCst);
                if n == 1 {
                    course.go_to(self.rt, CATCH_UP);
                }
            }
            Point::Loaded { .. } => {}
        }
    }
}
