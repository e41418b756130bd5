ghost use Rattle.std.specs.Prelude.{◌≡◌, ◌+◌, ◌≤◌, ◌++◌, [], length, take, IsOk, IfOk, IfErr, OnOk, OnErr};
ghost use Rattle.std.specs.Ordering.{nat_cmp};
ghost use Rattle.std.specs.Cmp.Lexicographic.{slice_cmp};
ghost use Rattle.byteorder.specs.Endian.{big_number};
ghost use Rattle.keybytes.specs.Heads.{AreBytes};

use crate::{Fault, KEY_COLUMNS_MAX, TEXT_MAX};
use smallvec::SmallVec;
use std::alloc::Global;
use std::cmp::Ordering;
use std::marker::Model;

/// The greatest number of bytes of a key: four texts of a hundred bytes 0, each escaped, with a tag and an end mark.
pub const KEY_MAX: usize = 812;

const _: () = prove!(KEY_MAX == KEY_COLUMNS_MAX * (1 + 2 * TEXT_MAX + 2));

/// The bytes that a key keeps in place; a longer key lies in memory of its own.
pub const KEY_INLINE: usize = 24;

/// The bytes that are compared as one number.
const HEAD: usize = 8;

/// The bytes of a key, at most [`KEY_MAX`], in the order of lists of bytes. Contracts see the list of the bytes.
pub struct Key {
    pub(crate) bytes: SmallVec<u8, KEY_INLINE>,
}

impl Drop for Key {
    fn drop(self) {
        let Key { bytes: _ } = self;
    }
}

impl Model for Key {
    ghost use Rattle.std.specs.Prelude.{ℕ, ◌≤◌, List, length};
    ghost use Rattle.keybytes.specs.KeyRoom.{HasRoom};

    ghost Value = { List ℕ };

    ghost view = { λ key. key.bytes.items };

    ghost invariant = { λ key. HasRoom (length key.bytes.items) key.bytes.capacity };
}

impl Key {
    /// The empty key.
    pub fn new(alloc: Global) -> Key
        ensures { result ≡ [] }
    {
        Key {
            bytes: SmallVec::new(alloc),
        }
    }

    pub fn bytes(&self) -> &[u8]
        ensures bytes { result.now ≡ self.now }
        ensures short { length self.now ≤ 812 }
    {
        self.bytes.as_slice()
    }

    /// Keeps the first `len` of the bytes that are there.
    pub fn cut(&mut self, len: usize)
        requires { len ≤ length self.old }
        ensures { self.new ≡ take len self.old }
    {
        self.bytes.truncate(len);
    }

    /// Puts bytes behind those that are there, at most [`KEY_MAX`] in all; up to 24 in all take no memory. An `Err`
    /// leaves the key as it was.
    pub fn add(&mut self, bytes: &[u8]) -> Result<(), Fault>
        requires { length self.old + length bytes.now ≤ 812 }
        ensures ok { OnOk result (self.new ≡ self.old ++ bytes.now) }
        ensures memory { IfErr result (λ fault. fault ≡ Fault.Memory) }
        ensures err { OnErr result (self.new ≡ self.old) }
        ensures inline { length self.old + length bytes.now ≤ 24 → IsOk result }
    {
        self.bytes.extend_from_slice(bytes)?;
        Ok(())
    }

    /// A copy; one of up to 24 bytes takes no memory.
    pub fn clone(&self) -> Result<Key, Fault>
        ensures same { IfOk result (λ key. key ≡ self.now) }
        ensures memory { IfErr result (λ fault. fault ≡ Fault.Memory) }
        ensures inline { length self.now ≤ 24 → IsOk result }
    {
        let mut key = Key::new(*self.bytes.allocator());
        key.add(self.bytes.as_slice())?;
        Ok(key)
    }
}

impl PartialEq for Key {
    ghost use Rattle.std.specs.Prelude.{nat_eq};
    ghost use Rattle.std.specs.Cmp.{partial_equiv_from_equiv};
    ghost use Rattle.std.specs.Cmp.Lexicographic.{pointwise, nat_list_eq_equiv};

    ghost eq = { pointwise nat_eq };

    ghost laws = { partial_equiv_from_equiv nat_list_eq_equiv };

    fn eq(&self, other: &Self) -> bool {
        self.bytes() == other.bytes()
    }
}

impl Eq for Key {
    ghost use Rattle.std.specs.Cmp.Lexicographic.{nat_list_eq_equiv};

    ghost laws = { nat_list_eq_equiv };
}

impl PartialOrd for Key {
    ghost use Rattle.std.specs.Prelude.{Some};
    ghost use Rattle.std.specs.Ordering.{nat_cmp};
    ghost use Rattle.std.specs.Cmp.Lexicographic.{slice_cmp, texts_po};

    ghost partial_cmp = { λ key other. Some (slice_cmp nat_cmp key other) };

    ghost laws = { texts_po };

    fn partial_cmp(&self, other: &Self) -> Option<Ordering> {
        Some(self.cmp(other))
    }
}

impl Ord for Key {
    ghost use Rattle.std.specs.Prelude.{refl};
    ghost use Rattle.std.specs.Ordering.{nat_cmp};
    ghost use Rattle.std.specs.Cmp.Lexicographic.{slice_cmp, nat_list_cmp_total, texts_ties};

    ghost cmp = { slice_cmp nat_cmp };

    ghost total = { nat_list_cmp_total };

    ghost matches_partial_cmp = { λ key other. refl };

    ghost matches_eq = { λ key other. texts_ties key other };

    fn cmp(&self, other: &Self) -> Ordering {
        compare(self.bytes(), other.bytes())
    }
}

/// Compares lists of bytes.
#[inline]
fn compare(bytes: &[u8], others: &[u8]) -> Ordering
    ensures { result ≡ slice_cmp nat_cmp bytes.now others.now }
{
    if bytes.len() < HEAD || others.len() < HEAD {
        return bytes.cmp(&others);
    }
    compare_long(bytes, others)
}

/// Compares lists of bytes. The first bytes are compared as one number, which mostly decides.
#[inline]
fn compare_long(bytes: &[u8], others: &[u8]) -> Ordering
    requires long { 8 ≤ length bytes.now }
    requires other_long { 8 ≤ length others.now }
    requires bytes { AreBytes bytes.now }
    requires other_bytes { AreBytes others.now }
    ensures { result ≡ slice_cmp nat_cmp bytes.now others.now }
{
    let number = head(bytes);
    let other = head(others);
    if number != other {
        return number.cmp(&other);
    }
    let (rest, other_rest) = (&bytes[HEAD..], &others[HEAD..]);
    rest.cmp(&other_rest)
}

/// The number that the first eight bytes make, the highest first.
#[inline]
fn head(bytes: &[u8]) -> u64
    requires { 8 ≤ length bytes.now }
    ensures { result ≡ big_number 8 bytes.now }
{
    let Some((head, _)) = bytes.split_first_chunk::<HEAD>() else {
        unreachable!()
    };
    u64::from_be_bytes(*head)
}
