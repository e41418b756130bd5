//! Pairs in the bytes of a page, one after the other: the length of the key in two bytes, the key, the page of the RID
//! in four bytes and its slot in two. Numbers have their high byte first.

ghost use Rattle.std.specs.Prelude.{◌≡◌, ◌+◌, ◌≤◌, drop, IfOk, IfErr};
ghost use Rattle.run_spool.specs.PlainPages.{IsPage, pairs_at};
ghost use Rattle.keybytes.specs.Writes.{overwritten};
ghost use Rattle.run_spool.specs.Bytes.{pair_bytes, pair_size, first_pair, first_length, read_pairs, Stored, IsPair};

use crate::marks::Marks;
use crate::places::{number_at, rid_at, rid_to_bytes, write_at};
use byteorder::{BigEndian, ByteOrder};
use keybytes::{Fault, Key, Pair, Rid};
use spool_ledger::PAGE_SIZE;

/// The bytes of a pair beside its key.
pub(crate) const FIXED_SIZE: usize = 8;

/// Where the key begins in a pair.
const KEY_AT: usize = 2;

/// Writes a pair at a place.
pub(crate) fn write_pair(bytes: &mut [u8; PAGE_SIZE], at: usize, pair: &Pair)
    requires { at + pair_size pair.now ≤ PAGE_SIZE }
    ensures bytes { bytes.new ≡ overwritten at (pair_bytes pair.now) bytes.old }
    ensures good { IsPair pair.now }
{
    let Rid { page, slot } = pair.rid;
    let key = pair.key.bytes();
    let mut length = [0; KEY_AT];
    BigEndian::write_u16(&mut length, key.len() as u16);
    write_at(bytes, at, &length);
    write_at(bytes, at + KEY_AT, key);
    write_at(bytes, at + KEY_AT + key.len(), &rid_to_bytes(page, slot));
}

/// The length of the key of the pair at a place.
fn key_length(bytes: &[u8; PAGE_SIZE], at: usize) -> usize
    requires { at + 2 ≤ PAGE_SIZE }
    ensures { result ≡ first_length (drop at bytes.now) }
{
    number_at(bytes, at)
}

/// Where the pair with number `n` of those from `start` on begins, or the end of the pairs if there are just `n`.
fn skip(bytes: &[u8; PAGE_SIZE], start: usize, end: usize, count: usize, n: usize) -> usize
    requires stored { Stored bytes.now start end (read_pairs count (drop start bytes.now)) }
    requires there { n ≤ count }
    ensures { Stored bytes.now result end (drop n (read_pairs count (drop start bytes.now))) }
{
    let mut at = start;
    for _ in 0..n {
        at += FIXED_SIZE + key_length(bytes, at);
    }
    at
}

/// Where the pair with number `n` begins, or the end of the pairs if there are just `n`. From a cursor that is not
/// behind it, it walks over the pairs between them.
pub(crate) fn seek(bytes: &[u8; PAGE_SIZE], marks: Marks, n: usize) -> usize
    requires page { IsPage bytes.now marks }
    requires there { n ≤ marks.count }
    ensures { Stored bytes.now result marks.end (drop n (pairs_at bytes.now marks)) }
{
    if n < marks.cursor {
        return skip(bytes, marks.start, marks.end, marks.count, n);
    }
    let ahead = marks.count - marks.cursor;
    skip(bytes, marks.offset, marks.end, ahead, n - marks.cursor)
}

/// Reads the pair at a place; an `Err` leaves some key.
pub(crate) fn read_pair(bytes: &[u8; PAGE_SIZE], at: usize, key: &mut Key) -> Result<Rid, Fault>
    requires { (at + 8 + first_length (drop at bytes.now) ≤ PAGE_SIZE) × (first_length (drop at bytes.now) ≤ 812) }
    ensures rid { IfOk result (λ rid. rid ≡ (first_pair (drop at bytes.now)).rid) }
    ensures key { IfOk result (λ _. key.new ≡ (first_pair (drop at bytes.now)).key) }
    ensures memory { IfErr result (λ fault. fault ≡ Fault.Memory) }
{
    let behind = at + KEY_AT + key_length(bytes, at);
    key.cut(0);
    key.add(&bytes[at + KEY_AT..behind])?;
    Ok(rid_at(bytes, behind))
}
