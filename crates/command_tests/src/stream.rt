use std::alloc::Global;
use std::io::{self, ErrorKind, Read, Write};

/// How a call fails.
#[derive(Clone, Copy)]
pub struct Failure {
    pub kind: ErrorKind,
    /// Whether each call behind it fails as well.
    pub stays: bool,
}

/// A text that is read, and bytes that are kept as they are written, so many a call at most. One of its calls may fail, and those behind it
/// go well again.
pub struct Stream<'a> {
    text: &'a [u8],
    kept: Vec<u8>,
    /// The most bytes of a call.
    piece: usize,
    /// How many calls go well before one fails.
    well: usize,
    failure: Failure,
    has_failed: bool,
    /// Whether the call that failed isn't made again.
    is_broken: bool,
    /// Whether bytes were written since the last flush.
    is_unsent: bool,
}

impl Drop for Stream<'_> {
    fn drop(self) {
        let Stream {
            text: _,
            kept: _,
            piece: _,
            well: _,
            failure: _,
            has_failed: _,
            is_broken: _,
            is_unsent: _,
        } = self;
    }
}

impl<'a> Stream<'a> {
    /// One whose calls all go well, however many bytes they move.
    pub fn new(alloc: Global, text: &'a [u8]) -> Stream<'a> {
        Stream {
            text,
            kept: Vec::new(alloc),
            piece: usize::MAX,
            well: usize::MAX,
            failure: Failure {
                kind: ErrorKind::Other,
                stays: false,
            },
            has_failed: false,
            is_broken: false,
            is_unsent: false,
        }
    }

    /// From now on a call moves at most so many bytes.
    pub fn part(&mut self, piece: usize) {
        self.piece = piece;
    }

    /// Behind so many calls one fails.
    pub fn fail_behind(&mut self, well: usize, failure: Failure) {
        self.well = well;
        self.failure = failure;
    }

    /// What was written.
    pub fn kept(&self) -> &[u8] {
        self.kept.as_slice()
    }

    /// Whether a call failed.
    pub fn has_failed(&self) -> bool {
        self.has_failed
    }

    /// Whether one failed that isn't made again. A read or a write that was interrupted is, a flush isn't.
    pub fn is_broken(&self) -> bool {
        self.is_broken
    }

    /// Whether this call goes well.
    fn goes_well(&mut self) -> bool {
        if self.has_failed {
            return !self.failure.stays;
        }
        self.has_failed = self.well == 0;
        self.well = self.well.saturating_sub(1);
        !self.has_failed
    }

    /// How a read or a write fails.
    fn fail(&mut self) -> io::Error {
        self.is_broken = self.failure.kind != ErrorKind::Interrupted;
        io::Error::from(self.failure.kind)
    }
}

impl Read for Stream<'_> {
    fn read(&mut self, buf: &mut [u8]) -> io::Result<usize> {
        if !self.goes_well() {
            return Err(self.fail());
        }
        let most = buf.len().min(self.piece);
        self.text.read(&mut buf[..most])
    }
}

impl Write for Stream<'_> {
    fn write(&mut self, buf: &[u8]) -> io::Result<usize> {
        if !self.goes_well() {
            return Err(self.fail());
        }
        let most = buf.len().min(self.piece);
        self.is_unsent = true;
        self.kept.write(&buf[..most])
    }

    /// Where nothing was written since the last flush there is nothing to do, and nothing fails.
    fn flush(&mut self) -> io::Result<()> {
        if self.is_unsent && !self.goes_well() {
            self.is_broken = true;
            return Err(io::Error::from(self.failure.kind));
        }
        self.is_unsent = false;
        Ok(())
    }
}
