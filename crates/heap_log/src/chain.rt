/// The writes that belong together: those of one transaction, or those at one RID.
#[derive(Clone, Copy)]
pub(crate) enum Chain {
    OfTxn,
    AtRid,
}
