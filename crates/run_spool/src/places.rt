//! Numbers and RIDs at places of a page. Numbers have their high byte first.

ghost use Rattle.std.specs.Prelude.{◌≡◌, ◌+◌, ◌≤◌, length, drop};
ghost use Rattle.byteorder.specs.Endian.{big_number};
ghost use Rattle.keybytes.specs.Writes.{overwritten};
ghost use Rattle.run_spool.specs.Bytes.{rid_bytes, first_rid};

use byteorder::{BigEndian, ByteOrder};
use keybytes::Rid;
use spool_ledger::PAGE_SIZE;

/// Writes `new` over the bytes that stand at a place.
pub fn write_at(bytes: &mut [u8; PAGE_SIZE], at: usize, new: &[u8])
    requires { at + length new.now ≤ PAGE_SIZE }
    ensures { bytes.new ≡ overwritten at new.now bytes.old }
{
    bytes[at..at + new.len()].copy_from_slice(new);
}

/// The six bytes of a RID: four of its page and two of its slot.
pub fn rid_to_bytes(page: u32, slot: u16) -> [u8; 6]
    ensures { result ≡ rid_bytes (record { page = page; slot = slot }) }
{
    let mut bytes = [0; 6];
    BigEndian::write_u32(&mut bytes, page);
    BigEndian::write_u16(&mut bytes[4..], slot);
    bytes
}

/// The number in the two bytes at a place.
pub fn number_at(bytes: &[u8; PAGE_SIZE], at: usize) -> usize
    requires { at + 2 ≤ PAGE_SIZE }
    ensures { result ≡ big_number 2 (drop at bytes.now) }
{
    BigEndian::read_u16(&bytes[at..]) as usize
}

/// The RID in the six bytes at a place.
pub fn rid_at(bytes: &[u8; PAGE_SIZE], at: usize) -> Rid
    requires { at + 6 ≤ PAGE_SIZE }
    ensures { result ≡ first_rid (drop at bytes.now) }
{
    Rid {
        page: BigEndian::read_u32(&bytes[at..]),
        slot: BigEndian::read_u16(&bytes[at + 4..]),
    }
}
