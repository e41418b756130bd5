ghost use Rattle.std.specs.Prelude.{◌≡◌, ◌==◌, ◌+◌, ◌<◌, ◌≤◌, length, min, slice_index, true, false};
ghost use Rattle.std.specs.Bool.{OnFalse, OnTrue};
ghost use Rattle.csv_index.specs.Lines.{CountsTo, ends_line, is_end_byte, line_at};

use std::marker::Model;

/// Counts the lines of a text up to its records. A line ends with `\n`, `\r\n` or `\r` alone. Contracts see the text, and how many of its bytes
/// are passed.
pub struct LineCounter<'a> {
    text: &'a [u8],
    /// The bytes before it are counted.
    at: usize,
    /// The line of the next byte, from 1.
    line: u64,
}

impl<'a> Drop for LineCounter<'a> {
    fn drop(self) {
        let LineCounter {
            text: _,
            at: _,
            line: _,
        } = self;
    }
}

impl<'a> Model for LineCounter<'a> {
    ghost use Rattle.std.specs.Prelude.{◌≡◌, ◌≤◌, length};
    ghost use Rattle.csv_index.specs.Lines.{LineCount, line_at};

    ghost Value = { LineCount };

    ghost view = { λ counter. record { text = counter.text.now; passed = counter.at } };

    ghost invariant = { λ counter. (counter.at ≤ length counter.text.now) × (counter.line ≡ line_at counter.text.now counter.at) };
}

impl<'a> LineCounter<'a> {
    pub fn new(text: &'a [u8]) -> LineCounter<'a>
        ensures text { result.text ≡ text.now }
        ensures passed { result.passed ≡ 0 }
    {
        LineCounter {
            text,
            at: 0,
            line: 1,
        }
    }

    /// The line of the first byte from that place on that ends no line. Places are asked for in their order.
    pub fn line_from(&mut self, place: usize) -> u64
        ensures counts { CountsTo self.old place self.new }
        ensures line { result ≡ line_at self.new.text self.new.passed }
    {
        while !self.goes_on_from(place) {
            self.pass();
        }
        self.line
    }

    /// Whether the next byte stands at that place or behind it and ends no line, or there is none.
    fn goes_on_from(&self, place: usize) -> bool
        ensures onward { OnTrue result (min place (length self.now.text) ≤ self.now.passed) }
        ensures here { OnTrue result (self.now.passed < length self.now.text → is_end_byte (slice_index self.now.text self.now.passed) ≡ false) }
        ensures inside { OnFalse result (self.now.passed < length self.now.text) }
        ensures ends { OnFalse result (place ≤ self.now.passed → is_end_byte (slice_index self.now.text self.now.passed) ≡ true) }
    {
        if self.at >= self.text.len() {
            return true;
        }
        self.at >= place && !is_end_byte(self.text[self.at])
    }

    /// Counts the next byte.
    fn pass(&mut self)
        requires { self.old.passed < length self.old.text }
        ensures text { self.new.text ≡ self.old.text }
        ensures passed { self.new.passed ≡ self.old.passed + 1 }
    {
        if ends_line(self.text, self.at) {
            self.line = self.line.saturating_add(1);
        }
        self.at += 1;
    }
}

/// Whether the byte is of the end of a line.
fn is_end_byte(byte: u8) -> bool
    ensures { result ≡ is_end_byte byte }
{
    byte == b'\n' || byte == b'\r'
}

/// Whether a line ends with the byte at that place.
fn ends_line(text: &[u8], place: usize) -> bool
    requires { place < length text.now }
    ensures { result ≡ ends_line text.now place }
{
    match text[place] {
        b'\n' => true,
        b'\r' => !is_feed(text, place + 1),
        _ => false,
    }
}

/// Whether there is a `\n` at that place.
fn is_feed(text: &[u8], place: usize) -> bool
    ensures { result ≡ (slice_index text.now place == 10) }
{
    place < text.len() && text[place] == b'\n'
}
