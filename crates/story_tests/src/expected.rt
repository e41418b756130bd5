//! What is printed, beside what should be.

use replay::{Answer, Output};
use std::io::{self, Write};

/// Compares what is printed with the beginning of a text.
#[derive(Drop)]
struct Expected<'t> {
    left: &'t [u8],
    is_same: bool,
}

impl Write for Expected<'_> {
    fn write(&mut self, buf: &[u8]) -> io::Result<usize> {
        let len = buf.len();
        if self.left.starts_with(buf) && len <= self.left.len() {
            self.left = &self.left[len..];
        } else {
            self.is_same = false;
        }
        Ok(len)
    }

    fn flush(&mut self) -> io::Result<()> {
        Ok(())
    }
}

/// What stands behind the first such byte.
fn behind(text: &[u8], byte: u8) -> &[u8] {
    for at in 0..text.len() {
        if text[at] == byte {
            return &text[at + 1..];
        }
    }
    &[]
}

/// The number with which a text begins.
fn number_at(text: &[u8]) -> usize {
    let mut number: usize = 0;
    for byte in text {
        if !byte.is_ascii_digit() {
            return number;
        }
        number = number
            .saturating_mul(10)
            .saturating_add(byte.wrapping_sub(b'0') as usize);
    }
    number
}

/// The first number of an answer that has one.
pub fn first_value(told: &[u8]) -> u64 {
    number_at(behind(behind(told, b','), b',')) as u64
}

/// The lines from those on with that number in front, or a greater one.
pub fn from_number(lines: &[u8], number: usize) -> &[u8] {
    let mut left = lines;
    for _ in 0..lines.len() {
        if number_at(left) >= number {
            return left;
        }
        left = behind(left, b'\n');
    }
    left
}

fn prints(output: &mut Output<&mut Expected<'_>>, number: usize, answer: &Answer) -> bool {
    output.print(number, answer).is_ok() && output.flush().is_ok()
}

/// Whether the answer to the record of that number is printed as the first of these lines, which has that number, and
/// those behind it that have it.
pub fn is_printed(number: usize, answer: &Answer, lines: &[u8]) -> bool {
    let mut expected = Expected {
        left: lines,
        is_same: true,
    };
    let is_printed = prints(&mut Output::new(&mut expected), number, answer);
    is_printed && expected.is_same && number_at(expected.left) != number
}
