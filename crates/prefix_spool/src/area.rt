//! Pairs in the bytes of a page, each written behind the key of the one before it: how many bytes of that key its own key begins
//! with, how many bytes more it has, those, the page of the RID in four bytes and its slot in two. The first two numbers take
//! two bytes each, and numbers have their high byte first.

ghost use Rattle.std.specs.Prelude.{◌≡◌, ◌+◌, ◌≤◌, ◌++◌, length, drop, take, IfOk, IfErr, OnOk};
ghost use Rattle.byteorder.specs.Endian.{big_bytes};
ghost use Rattle.keybytes.specs.Writes.{overwritten};
ghost use Rattle.run_spool.specs.Bytes.{IsPair};
ghost use Rattle.prefix_spool.specs.PrefixBytes.{shared, bytes_sharing, size_sharing};
ghost use Rattle.prefix_spool.specs.PrefixBytes.{first_shared, first_more, first_key, first_behind, read_behind, StandsBehind};
ghost use Rattle.prefix_spool.specs.PrefixPages.{IsPage, written_at};

use crate::fronts::shared_front;
use crate::marks::Marks;
use byteorder::{BigEndian, ByteOrder};
use keybytes::{Fault, Key, Pair, Rid};
use run_spool::places::{number_at, rid_at, rid_to_bytes, write_at};
use spool_ledger::PAGE_SIZE;

/// The bytes of a pair beside those of its key.
const FIXED_SIZE: usize = 10;

/// Where the number of the further key bytes stands in a pair.
const MORE_AT: usize = 2;

/// Where the further key bytes begin in a pair.
const KEY_AT: usize = 4;

/// How many bytes the key of a pair shares with the key before it.
pub(crate) fn shared_with(before: &Key, pair: &Pair) -> usize
    ensures shared { result ≡ shared before.now pair.now.key }
    ensures within { result ≤ length pair.now.key }
{
    shared_front(before.bytes(), pair.key.bytes())
}

/// How many bytes a pair takes whose key shares that many with the key before it.
pub(crate) fn size_of_pair(shared: usize, pair: &Pair) -> usize
    requires { shared ≤ length pair.now.key }
    ensures size { result ≡ size_sharing shared pair.now }
    ensures short { length pair.now.key ≤ 812 }
{
    FIXED_SIZE + (pair.key.bytes().len() - shared)
}

/// The four bytes before the key's: two numbers.
fn head_to_bytes(shared: u16, more: u16) -> [u8; 4]
    ensures { result ≡ big_bytes 2 shared ++ big_bytes 2 more }
{
    let mut bytes = [0; KEY_AT];
    BigEndian::write_u16(&mut bytes, shared);
    BigEndian::write_u16(&mut bytes[MORE_AT..], more);
    bytes
}

/// Writes a pair at a place, whose key shares that many bytes with the key before it.
pub(crate) fn write_pair(bytes: &mut [u8; PAGE_SIZE], at: usize, shared: usize, pair: &Pair)
    requires within { shared ≤ length pair.now.key }
    requires room { at + size_sharing shared pair.now ≤ PAGE_SIZE }
    ensures bytes { bytes.new ≡ overwritten at (bytes_sharing shared pair.now) bytes.old }
    ensures good { IsPair pair.now }
{
    let Rid { page, slot } = pair.rid;
    let more = &pair.key.bytes()[shared..];
    write_at(bytes, at, &head_to_bytes(shared as u16, more.len() as u16));
    write_at(bytes, at + KEY_AT, more);
    write_at(bytes, at + KEY_AT + more.len(), &rid_to_bytes(page, slot));
}

/// How many bytes of the key before it the key of the pair at a place begins with.
fn shared_length(bytes: &[u8; PAGE_SIZE], at: usize) -> usize
    requires { at + 2 ≤ PAGE_SIZE }
    ensures { result ≡ first_shared (drop at bytes.now) }
{
    number_at(bytes, at)
}

/// How many further bytes the key of the pair at a place has.
fn more_length(bytes: &[u8; PAGE_SIZE], at: usize) -> usize
    requires { at + 4 ≤ PAGE_SIZE }
    ensures { result ≡ first_more (drop at bytes.now) }
{
    number_at(bytes, at + MORE_AT)
}

/// The further bytes of the key of the pair at a place.
fn further_bytes(bytes: &[u8; PAGE_SIZE], at: usize) -> &[u8]
    requires { at + (10 + first_more (drop at bytes.now)) ≤ PAGE_SIZE }
    ensures { result.now ≡ take (first_more (drop at bytes.now)) (drop 4 (drop at bytes.now)) }
{
    let more = more_length(bytes, at);
    let key_at = at + KEY_AT;
    &bytes[key_at..key_at + more]
}

/// Makes the key before a pair the key of the pair, and returns how many bytes the pair takes. An `Err` leaves some key.
fn pass_pair(bytes: &[u8; PAGE_SIZE], at: usize, before: &mut Key) -> Result<usize, Fault>
    requires within { at + (10 + first_more (drop at bytes.now)) ≤ PAGE_SIZE }
    requires short { first_shared (drop at bytes.now) + first_more (drop at bytes.now) ≤ 812 }
    requires there { first_shared (drop at bytes.now) ≤ length before.old }
    ensures size { IfOk result (λ size. size ≡ 10 + first_more (drop at bytes.now)) }
    ensures key { OnOk result (before.new ≡ first_key before.old (drop at bytes.now)) }
    ensures memory { IfErr result (λ fault. fault ≡ Fault.Memory) }
{
    let further = further_bytes(bytes, at);
    before.cut(shared_length(bytes, at));
    before.add(further)?;
    Ok(FIXED_SIZE + further.len())
}

/// Walks over `n` of the pairs that stand from a place on, of which the first stands behind the key `before`, and returns where the
/// next one begins; that key is then the one before it. An `Err` leaves some key.
fn skip(
    bytes: &[u8; PAGE_SIZE],
    start: usize,
    end: usize,
    count: usize,
    n: usize,
    before: &mut Key,
) -> Result<usize, Fault>
    requires stands { StandsBehind bytes.now start end before.old (read_behind count before.old (drop start bytes.now)) }
    requires there { n ≤ count }
    ensures found { IfOk result (λ at. StandsBehind bytes.now at end before.new (drop n (read_behind count before.old (drop start bytes.now)))) }
    ensures memory { IfErr result (λ fault. fault ≡ Fault.Memory) }
{
    let mut at = start;
    for _ in 0..n {
        at += pass_pair(bytes, at, before)?;
    }
    Ok(at)
}

/// Where the pair with number `n` begins, or the end of the pairs if there are just `n`, with the key before it in `before`, which
/// is the cursor's at first. From a cursor that is not behind it, it walks over the pairs between them, and else from the
/// page's begin. An `Err` leaves some key.
pub(crate) fn seek(
    bytes: &[u8; PAGE_SIZE],
    marks: Marks,
    n: usize,
    before: &mut Key,
) -> Result<usize, Fault>
    requires page { IsPage bytes.now marks before.old }
    requires there { n ≤ marks.count }
    ensures found { IfOk result (λ at. StandsBehind bytes.now at marks.end before.new (drop n (written_at bytes.now marks))) }
    ensures memory { IfErr result (λ fault. fault ≡ Fault.Memory) }
{
    if n < marks.cursor {
        before.cut(0);
        return skip(bytes, 0, marks.end, marks.count, n, before);
    }
    let ahead = marks.count - marks.cursor;
    skip(
        bytes,
        marks.offset,
        marks.end,
        ahead,
        n - marks.cursor,
        before,
    )
}

/// Reads the pair at a place, behind a key; an `Err` leaves some key.
pub(crate) fn read_pair(
    bytes: &[u8; PAGE_SIZE],
    at: usize,
    before: &Key,
    key: &mut Key,
) -> Result<Rid, Fault>
    requires within { at + (10 + first_more (drop at bytes.now)) ≤ PAGE_SIZE }
    requires short { first_shared (drop at bytes.now) + first_more (drop at bytes.now) ≤ 812 }
    requires there { first_shared (drop at bytes.now) ≤ length before.now }
    ensures rid { IfOk result (λ rid. rid ≡ (first_behind before.now (drop at bytes.now)).rid) }
    ensures key { IfOk result (λ _. key.new ≡ (first_behind before.now (drop at bytes.now)).key) }
    ensures memory { IfErr result (λ fault. fault ≡ Fault.Memory) }
{
    let behind = at + KEY_AT + more_length(bytes, at);
    let shared = shared_length(bytes, at);
    key.cut(0);
    key.add(&before.bytes()[..shared])?;
    key.add(further_bytes(bytes, at))?;
    Ok(rid_at(bytes, behind))
}
