use crate::failure::Failure;
use keybytes::Rid;
use std::alloc::Global;

/// A label's transactions: where the one that it names now has writes that stand, oldest first.
#[derive(Drop)]
pub struct TxnLane {
    pub label: String,
    pub writes: Vec<Rid>,
}

impl TxnLane {
    pub fn new(alloc: Global, label: &str) -> Result<TxnLane, Failure> {
        Ok(TxnLane {
            label: String::from_str(alloc, label)?,
            writes: Vec::new(alloc),
        })
    }
}
