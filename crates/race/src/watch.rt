use crew::{Point, Progress};

/// Is shown, while a race runs, how far its build is. Only workers that come by meanwhile wait for it, and no session does.
pub trait Watch {
    /// Whether it is to be shown more, now that the build is there.
    fn is_due(&mut self, point: Point) -> bool;

    /// The build is so far.
    fn show(&mut self, progress: Progress);

    /// The build has ended, and nothing more is shown.
    fn end(&mut self);
}
