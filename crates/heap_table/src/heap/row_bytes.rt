//! The bytes of rows on their way to pages, in memory that one row leaves to the next.
ghost use Rattle.std.specs.Prelude.{◌≡◌, [], IfOk, IfErr, IfSome, OnOk};
ghost use Rattle.heap_table.specs.Ready.{IsSized, bytes_of_row};

use super::Heap;
use keybytes::{Fault, Row};
use std::mem::replace;

impl Heap {
    /// No bytes yet, in the memory that is kept for them.
    pub(super) fn take_bytes(&mut self) -> Vec<u8>
        ensures none { result.items ≡ [] }
        ensures same { self.new ≡ self.old }
    {
        let none = Vec::new(self.pages.allocator());
        let mut bytes = replace(&mut self.spare_bytes, none);
        bytes.clear();
        bytes
    }

    /// The bytes of a row, none without one.
    pub(super) fn bytes_of(&mut self, row: &Option<Row>) -> Result<Vec<u8>, Fault>
        ensures ok { IfOk result (λ bytes. bytes.items ≡ bytes_of_row row.now) }
        ensures size { OnOk result (IfSome row.now IsSized) }
        ensures same { self.new ≡ self.old }
        ensures memory { IfErr result (λ fault. fault ≡ Fault.Memory) }
    {
        let mut bytes = self.take_bytes();
        write_row(row, &mut bytes)?;
        Ok(bytes)
    }
}

/// Puts the bytes of a row in place of those that are there.
fn write_row(row: &Option<Row>, bytes: &mut Vec<u8>) -> Result<(), Fault>
    requires { bytes.old.items ≡ [] }
    ensures ok { OnOk result (bytes.new.items ≡ bytes_of_row row.now) }
    ensures size { OnOk result (IfSome row.now IsSized) }
    ensures memory { IfErr result (λ fault. fault ≡ Fault.Memory) }
{
    match row {
        Some(row) => row.write_bytes(bytes),
        None => Ok(()),
    }
}
