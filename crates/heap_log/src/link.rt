ghost use Rattle.std.specs.Prelude.{◌≡◌, false, length};
ghost use Rattle.heap_log.specs.Links.{link_before, AreMarked};
ghost use Rattle.heap_log.specs.Standing.{NamesEarlier};

use crate::LogRec;
use crate::chain::Chain;
use crate::kept_number::number_in;
use chunk_list::ChunkList;

/// What the log keeps beside a record. A write's links lead to the writes that were the newest standing ones when it
/// came; those may be undone since. Each is the number of a record as it is kept.
#[derive(Clone, Copy)]
pub(crate) struct Link {
    pub of_txn: usize,
    pub at_rid: usize,
    /// The transaction's write before this one, standing or not.
    pub previous: usize,
    /// An undo names this record.
    pub undone: bool,
}

impl Link {
    /// The link of a record that is no write.
    pub fn none() -> Link
        ensures { result ≡ record { of_txn = 0; at_rid = 0; previous = 0; undone = false } }
    {
        Link {
            of_txn: 0,
            at_rid: 0,
            previous: 0,
            undone: false,
        }
    }

    /// Where the chain leads from here.
    pub fn before(self, chain: Chain) -> Option<usize>
        ensures { result ≡ link_before chain self }
    {
        match chain {
            Chain::OfTxn => number_in(self.of_txn),
            Chain::AtRid => number_in(self.at_rid),
        }
    }
}

/// Marks what the record undoes.
pub(crate) fn mark_undone(links: &mut ChunkList<Link>, added: &LogRec)
    requires { NamesEarlier (length links.old.items) added.now }
    ensures marked { AreMarked added.now links.old.items links.new.items }
    ensures room { links.new.room ≡ links.old.room }
{
    if let LogRec::Undo { undone, .. } = added {
        links[*undone - 1].undone = true;
    }
}
