/// An open transaction.
#[derive(Clone, Copy, PartialEq, Eq)]
pub struct OpenTxn {
    pub txn: u64,
    /// An undo of it has begun, so that it can only be undone further.
    pub ending: bool,
}
