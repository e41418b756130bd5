//! What the log keeps of each transaction that wrote, so that no question walks the log.
ghost use Rattle.std.specs.Prelude.{◌≡◌, ◌<◌, ◌≤◌, ◌+◌, ◌++◌, ℕ, length, replicate, IsOk, IfSome, IfErr, OnOk, OnErr};
ghost use Rattle.heap_log.specs.Heads.{with_txn};
ghost use Rattle.heap_log.specs.TxnHeads.{no_txn_head, txn_head_in, IsTxnReserved};

use crate::heads::Heads;
use chunk_list::ChunkList;
use keybytes::Fault;

/// What is kept of a transaction.
#[derive(Clone, Copy)]
pub(crate) struct TxnHead {
    /// Its last write, standing or not.
    pub last: Option<usize>,
    /// Its newest standing write.
    pub newest: Option<usize>,
    /// How many of its writes stand.
    pub standing: usize,
}

impl TxnHead {
    /// The head of a transaction that wrote nothing.
    pub fn none() -> TxnHead
        ensures { result ≡ no_txn_head }
    {
        TxnHead {
            last: None,
            newest: None,
            standing: 0,
        }
    }
}

/// The heads by transaction, whose numbers follow one another. In chunks, so that nobody waits while all of them move.
pub(crate) type TxnHeads = ChunkList<TxnHead>;

/// The head of a transaction. One without a place wrote nothing.
pub(crate) fn txn_head(heads: &TxnHeads, txn: u64) -> TxnHead
    ensures { result ≡ txn_head_in heads.now.items txn }
{
    let place = txn as usize;
    if place < heads.len() {
        heads[place]
    } else {
        TxnHead::none()
    }
}

/// Puts the changed head, if any, into the place of its transaction.
pub(crate) fn set_txn_head(heads: &mut TxnHeads, changed: Option<Heads>)
    requires { IfSome changed (λ change. change.txn < length heads.old.items) }
    ensures set { (txn : ℕ) → txn_head_in heads.new.items txn ≡ with_txn changed txn (txn_head_in heads.old.items txn) }
    ensures places { length heads.new.items ≡ length heads.old.items }
{
    if let Some(changed) = changed {
        heads[changed.txn as usize] = changed.of_txn;
    }
}

/// Makes places for the transactions up to that one.
pub(crate) fn reserve_txn(heads: &mut TxnHeads, txn: u64) -> Result<(), Fault>
    ensures ok { OnOk result (IsTxnReserved txn heads.old.items heads.new.items) }
    ensures err { OnErr result (heads.new ≡ heads.old) }
    ensures memory { IfErr result (λ fault. fault ≡ Fault.Memory) }
    ensures succeeds { txn < length heads.old.items → IsOk result }
{
    let place = txn as usize;
    let count = heads.len();
    if place < count {
        return Ok(());
    }
    let Some(missing) = (place - count).checked_add(1) else {
        return Err(Fault::Memory);
    };
    heads.reserve(missing)?;
    push_none(heads, missing);
    Ok(())
}

/// Adds that many heads of transactions that wrote nothing. Takes no memory.
fn push_none(heads: &mut TxnHeads, count: usize)
    requires { count ≤ heads.old.room }
    ensures { heads.new.items ≡ heads.old.items ++ replicate count no_txn_head }
{
    for _ in 0..count {
        heads.push_reserved(TxnHead::none());
    }
}
