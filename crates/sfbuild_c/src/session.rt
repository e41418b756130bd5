ghost use Rattle.std.specs.Prelude.{◌≡◌, is_some};

use crate::cause::Cause;
use crate::held::Held;

/// A table with its builds, or nothing, and what the newest refusal said. The caller keeps it where it likes, and may move it.
#[repr(C)]
#[derive(Drop)]
pub struct Session {
    pub(crate) held: Held,
    pub(crate) opened: bool,
    pub(crate) cause: Cause,
    pub(crate) ghost tied: { is_some held.table ≡ opened },
}
