ghost use Rattle.std.specs.Prelude.{◌≡◌, ◌≤◌, length, true, IfSome, IfOk, IfErr, IsOk};
ghost use Rattle.keybytes.specs.Cells.{fits};
ghost use Rattle.keybytes.specs.Keys.{key_there};

use keybytes::{Fault, Key, KeySpec, Row};

/// The key that an index has of a row, if there is a row and the index takes it. Refused only for want of memory; a key of at most 24 bytes
/// takes none.
pub fn key_there(spec: &KeySpec, row: &Option<Row>) -> Result<Option<Key>, Fault>
    requires { IfSome row.now (λ cells. fits spec.now.kinds cells ≡ true) }
    ensures ok { IfOk result (λ key. key ≡ key_there spec.now row.now) }
    ensures inline { IfSome (key_there spec.now row.now) (λ key. length key ≤ 24) → IsOk result }
    ensures memory { IfErr result (λ fault. fault ≡ Fault.Memory) }
{
    match row {
        Some(row) => spec.key(row),
        None => Ok(None),
    }
}
