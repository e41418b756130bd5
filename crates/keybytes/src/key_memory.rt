ghost use Rattle.std.specs.Prelude.{◌≡◌, ◌≤◌, [], IfErr};

use crate::key::KEY_INLINE;
use crate::{Fault, KEY_MAX, Key};
use smallvec::SmallVec;
use std::alloc::Global;

/// Memory for the copy of any key, taken before the copy is made.
pub struct KeyMemory {
    bytes: SmallVec<u8, KEY_INLINE>,
    ghost empty: { bytes.items ≡ [] },
    ghost room: { 812 ≤ bytes.capacity },
}

impl Drop for KeyMemory {
    fn drop(self) {
        let KeyMemory { bytes: _ } = self;
    }
}

impl KeyMemory {
    /// Memory for a key of [`KEY_MAX`] bytes.
    pub fn new(alloc: Global) -> Result<KeyMemory, Fault>
        ensures memory { IfErr result (λ fault. fault ≡ Fault.Memory) }
    {
        let mut bytes = SmallVec::new(alloc);
        bytes.reserve_exact(KEY_MAX)?;
        Ok(KeyMemory { bytes })
    }

    /// A copy of the key, in this memory: it takes no other.
    pub fn copy(self, key: &Key) -> Key
        ensures { result ≡ key.now }
    {
        let KeyMemory { mut bytes } = self;
        let _ = bytes.extend_from_slice(key.bytes());
        Key { bytes }
    }
}
