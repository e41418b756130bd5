ghost use Rattle.std.specs.Prelude.{◌≡◌, ◌+◌, ◌==◌, List, [], ◌∷◌, ◌++◌, length, count_by};
ghost use Rattle.keybytes.specs.declared.cell.Cell.{Cell};
ghost use Rattle.csv_index.specs.Sizes.{counted, key_size, sizes_of_cells};

use keybytes::Cell;

/// How many bytes the cells of a column take in the keys of an index on it.
#[derive(Clone, Copy)]
pub struct KeySizes {
    /// Of all rows together.
    pub bytes: u64,
    /// Of one row at most.
    pub longest: usize,
}

impl KeySizes {
    pub const NONE: KeySizes = KeySizes {
        bytes: 0,
        longest: 0,
    };

    /// Another row has that cell.
    pub fn add(&mut self, cell: &Cell)
        ensures { (cells : List Cell) → self.old ≡ sizes_of_cells cells → self.new ≡ sizes_of_cells (cells ++ cell.now ∷ []) }
    {
        let size = size_of(cell);
        self.bytes = self.bytes.saturating_add(size as u64);
        self.longest = self.longest.max(size);
    }

    /// Those of keys that have both columns.
    pub fn and(self, other: KeySizes) -> KeySizes
        ensures bytes { result.bytes ≡ counted (self.bytes + other.bytes) }
        ensures longest { result.longest ≡ counted (self.longest + other.longest) }
    {
        KeySizes {
            bytes: self.bytes.saturating_add(other.bytes),
            longest: self.longest.saturating_add(other.longest),
        }
    }
}

/// A tag, and a number, a flag, or a text with two bytes of end mark, in which each byte 0 is followed by another.
fn size_of(cell: &Cell) -> usize
    ensures { result ≡ counted (key_size cell.now) }
{
    match cell {
        Cell::Null => 1,
        Cell::Int(_) => 9,
        Cell::Flag(_) => 2,
        Cell::Text(text) => size_of_text(text.as_str().as_bytes()),
    }
}

fn size_of_text(bytes: &[u8]) -> usize
    ensures { result ≡ counted (length bytes.now + count_by (λ byte. byte == 0) bytes.now + 3) }
{
    let zeros = bytes.iter().filter(|byte| **byte == 0).count();
    bytes.len().saturating_add(zeros).saturating_add(3)
}
