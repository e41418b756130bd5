use crate::Op;
use keybytes::{Key, Rid};

/// A change to an index that is being built: the pair of a key and a RID comes or goes. It carries the number of its build,
/// since a ring lives longer than a build.
#[derive(Drop, PartialEq, Eq)]
pub struct Entry {
    pub build: u64,
    pub op: Op,
    pub key: Key,
    pub rid: Rid,
}
