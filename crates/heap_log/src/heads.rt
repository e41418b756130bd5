use crate::rid_head::RidHead;
use crate::txn_head::TxnHead;
use keybytes::Rid;

/// What a record changes: the heads of one transaction and one RID.
#[derive(Clone, Copy)]
pub(crate) struct Heads {
    pub txn: u64,
    pub of_txn: TxnHead,
    pub rid: Rid,
    pub at_rid: RidHead,
}
