use crate::table::Watch;
use std::io::{self, Write};
use std::time::{Clock, Duration, Instant};

/// How many milliseconds a line stands before the next.
const PAUSE_MILLIS: u64 = 100;

/// Takes the cursor to the beginning of its line, and empties the line.
const EMPTY_LINE: &str = "\r\x1b[K";

/// Tells a user who waits how far a run is, by a line that is written again and again where the writer is a terminal. What can't be written
/// isn't told.
pub struct ProgressLine<C: Clock + Drop, W: Write + Drop> {
    clock: C,
    out: W,
    is_terminal: bool,
    /// When the next line is due, once there was one.
    next: Option<Instant>,
}

impl<C: Clock + Drop, W: Write + Drop> Drop for ProgressLine<C, W> {
    fn drop(self) {
        let ProgressLine {
            clock: _,
            out: _,
            is_terminal: _,
            next: _,
        } = self;
    }
}

impl<C: Clock + Drop, W: Write + Drop> ProgressLine<C, W> {
    /// A line on that writer, which is a terminal or isn't.
    pub fn new(clock: C, out: W, is_terminal: bool) -> ProgressLine<C, W> {
        ProgressLine {
            clock,
            out,
            is_terminal,
            next: None,
        }
    }

    /// Whether the next line is due, which then counts as written.
    fn is_due(&mut self) -> bool {
        if !self.is_terminal {
            return false;
        }
        let Ok(now) = Instant::now(&self.clock) else {
            return false;
        };
        if let Some(next) = self.next {
            if now < next {
                return false;
            }
        }
        self.next = now.checked_add(Duration::from_millis(PAUSE_MILLIS));
        true
    }

    fn write_rows(&mut self, rows: u64) -> io::Result<()> {
        write!(self.out, "{EMPTY_LINE}rows read: {rows}")?;
        self.out.flush()
    }

    fn write_build(&mut self, scanned: u64, pages: u64, loaded: u64) -> io::Result<()> {
        write!(
            self.out,
            "{EMPTY_LINE}pages scanned: {scanned} of {pages}, indexes in order: {loaded}"
        )?;
        self.out.flush()
    }
}

impl<C: Clock + Drop, W: Write + Drop> Watch for ProgressLine<C, W> {
    fn show_rows(&mut self, rows: u64) {
        if self.is_due() {
            let _not_told = self.write_rows(rows);
        }
    }

    fn show_build(&mut self, scanned: u64, pages: u64, loaded: u64) {
        if self.is_terminal {
            let _not_told = self.write_build(scanned, pages, loaded);
        }
    }

    fn clear(&mut self) {
        if self.is_terminal {
            let _not_told = self.out.write_all(EMPTY_LINE.as_bytes());
        }
    }
}
