ghost use Rattle.std.specs.Prelude.{◌≡◌};

use crate::KEY_MAX;
use smallvec::SmallVec;
use std::marker::Model;

/// The bytes of a key, kept in place whatever their number: they take no memory, and can be looked for, but not put into an index.
/// Contracts see the list of the bytes.
pub struct KeyInPlace {
    pub(crate) bytes: SmallVec<u8, KEY_MAX>,
}

impl Drop for KeyInPlace {
    fn drop(self) {
        let KeyInPlace { bytes: _ } = self;
    }
}

impl Model for KeyInPlace {
    ghost use Rattle.std.specs.Prelude.{ℕ, List};

    ghost Value = { List ℕ };

    ghost view = { λ key. key.bytes.items };
}

impl KeyInPlace {
    pub fn bytes(&self) -> &[u8]
        ensures { result.now ≡ self.now }
    {
        self.bytes.as_slice()
    }
}
