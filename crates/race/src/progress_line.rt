use crate::Watch;
use crew::{Phase, Point, Progress};
use std::io;
use std::io::Write;
use std::time::{Clock, Duration, Instant};

/// How many milliseconds a line stands on a terminal before the next.
const TERMINAL_MILLIS: u64 = 100;

/// The same where each line is kept.
const KEPT_MILLIS: u64 = 1_000;

/// Takes the cursor to the beginning of its line, and empties the line.
const EMPTY_LINE: &str = "\r\x1b[K";

/// Writes how far a build is, as a line. On a terminal that is one line, which is written again and again and is gone in the end; elsewhere each
/// line stays. What can't be written isn't told.
#[derive(Drop)]
pub struct ProgressLine<C: Clock + Drop, W: Write + Drop> {
    clock: C,
    out: W,
    is_terminal: bool,
    /// When the next line is due, once there was one.
    next: Option<Instant>,
}

impl<C: Clock + Drop, W: Write + Drop> ProgressLine<C, W> {
    /// A line on that writer, which is a terminal or isn't.
    pub fn new(clock: C, out: W, is_terminal: bool) -> ProgressLine<C, W> {
        ProgressLine {
            clock,
            out,
            is_terminal,
            next: None,
        }
    }

    fn write(&mut self, progress: Progress) -> io::Result<()> {
        if self.is_terminal {
            self.out.write_all(EMPTY_LINE.as_bytes())?;
        }
        write_phase(&mut self.out, progress)?;
        if !self.is_terminal {
            self.out.write_all(b"\n")?;
        }
        self.out.flush()
    }
}

impl<C: Clock + Drop, W: Write + Drop> Watch for ProgressLine<C, W> {
    /// An index in order and the first turn are due at once, any other line once the last one has stood for a while.
    fn is_due(&mut self, point: Point) -> bool {
        if let Point::Loaded { .. } | Point::Try { n: 1 } = point {
            return true;
        }
        let (Ok(now), Some(next)) = (Instant::now(&self.clock), self.next) else {
            return self.next.is_none();
        };
        now >= next
    }

    fn show(&mut self, progress: Progress) {
        let millis = if self.is_terminal {
            TERMINAL_MILLIS
        } else {
            KEPT_MILLIS
        };
        if let Ok(now) = Instant::now(&self.clock) {
            self.next = now.checked_add(Duration::from_millis(millis));
        }
        let _not_told = self.write(progress);
    }

    fn end(&mut self) {
        if self.is_terminal {
            let _not_told = self.out.write_all(EMPTY_LINE.as_bytes());
        }
    }
}

fn write_phase<W: Write>(out: &mut W, progress: Progress) -> io::Result<()> {
    let Progress {
        phase,
        pages,
        scanned,
        loaded,
        pairs,
        entries,
        tries,
        busy,
        waiting,
    } = progress;
    match phase {
        Phase::Idle => write!(out, "no build"),
        Phase::Scanning => write!(
            out,
            "scanning, pages: {scanned} of {pages}, changes left: {entries}"
        ),
        Phase::Loading => write!(
            out,
            "loading, indexes: {loaded}, pairs: {pairs}, changes left: {entries}"
        ),
        Phase::CatchingUp => write!(
            out,
            "catching up, try: {tries}, changes left: {entries}, sessions waiting: {waiting}, busy transactions: {busy}"
        ),
    }
}
