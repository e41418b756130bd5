ghost use Rattle.std.specs.Prelude.{◌≡◌, ℕ, ◌<◌, ◌≤◌, ◌+◌, ◌-◌, max, ◌++◌, ◌∷◌, [], length, Some, None, true, false, IsSome, IfSome, IsOk, IfErr, OnOk, OnErr};
ghost use Rattle.heap_log.specs.Growing.{Added, UndoesNameEarlier, changed_rid, is_change_by};
ghost use Rattle.heap_log.specs.Heads.{txn_head, rid_head, AreHeadsAfter};
ghost use Rattle.heap_log.specs.Links.{newest_before, newest_without, IsLinkOf};
ghost use Rattle.heap_log.specs.Places.{HasPlace, HasPlaceFor, KeepsPlaces};
ghost use Rattle.heap_log.specs.Standing.{record_at, undone, place_of, txn_of, is_number, is_write_of, is_write_at, last_of, last_at, stands_of, stands_at};
ghost use Rattle.heap_log.specs.Standing.{newest_standing, standing_before, standing_count, IsWrite, NamesEarlier};

use crate::LogRec;
use crate::chain::Chain;
use crate::heads::Heads;
use crate::kept_number::{kept, number_in};
use crate::link::{Link, mark_undone};
use crate::page_heads::{PageHeads, set_rid_head};
use crate::rid_head::RidHead;
use crate::txn_head::{TxnHead, TxnHeads, reserve_txn, set_txn_head, txn_head};
use chunk_list::ChunkList;
use keybytes::{Fault, Rid};
use std::alloc::Global;
use std::marker::Model;

/// The log. Contracts see its records in order; its room, how many more it can take without memory; its places, for how
/// many slots of each page it can take writes; and for how many transactions it can, by their numbers.
#[derive(Drop)]
pub struct Log {
    records: ChunkList<LogRec>,
    links: ChunkList<Link>,
    txns: TxnHeads,
    rids: PageHeads,
    room: usize,
}

impl Model for Log {
    ghost use Rattle.heap_log.specs.LogValue.{LogValue};

    ghost Value = { LogValue };

    ghost use Rattle.std.specs.Prelude.{length};
    ghost use Rattle.heap_log.specs.Heads.{IsKept};
    ghost use Rattle.heap_log.specs.PageHeads.{places_of};

    ghost view = { λ log. record {
      records = log.records.items;
      room = log.room;
      places = places_of log.rids;
      txns = length log.txns.items;
    } };

    ghost invariant = { λ log. IsKept log.records log.links log.txns.items log.rids log.room };
}

fn is_number(place: Option<usize>, number: usize) -> bool
    ensures { result ≡ is_number number place }
{
    match place {
        Some(other) => other == number,
        None => false,
    }
}

impl Log {
    /// The empty log.
    pub fn new(alloc: Global) -> Log
        ensures records { result.records ≡ [] }
        ensures room { result.room ≡ 0 }
        ensures places { result.places ≡ [] }
        ensures txns { result.txns ≡ 0 }
    {
        Log {
            records: ChunkList::new(alloc),
            links: ChunkList::new(alloc),
            txns: ChunkList::new(alloc),
            rids: PageHeads::new(alloc),
            room: 0,
        }
    }

    /// Makes room for that many more records. Takes no memory where the room is there already; a refusal changes nothing.
    pub fn reserve(&mut self, additional: usize) -> Result<(), Fault>
        ensures ok { OnOk result (additional ≤ self.new.room) }
        ensures records { self.new.records ≡ self.old.records }
        ensures room { self.old.room ≤ self.new.room }
        ensures exact { OnOk result (self.new.room ≡ max self.old.room additional) }
        ensures places { self.new.places ≡ self.old.places }
        ensures txns { self.new.txns ≡ self.old.txns }
        ensures err { OnErr result (self.new ≡ self.old) }
        ensures memory { IfErr result (λ fault. fault ≡ Fault.Memory) }
        ensures succeeds { additional ≤ self.old.room → IsOk result }
    {
        if self.room >= additional {
            return Ok(());
        }
        self.records.reserve(additional)?;
        self.links.reserve(additional)?;
        self.room = additional;
        Ok(())
    }

    /// Makes room for one more record, and a place for writes at the RID. A RID that was written has one already.
    pub fn reserve_at(&mut self, rid: Rid) -> Result<(), Fault>
        ensures ok { OnOk result (HasPlace rid self.new.places) }
        ensures kept { KeepsPlaces self.old.places self.new.places }
        ensures room { OnOk result (self.new.room ≡ max self.old.room 1) }
        ensures records { self.new.records ≡ self.old.records }
        ensures txns { self.new.txns ≡ self.old.txns }
        ensures err { OnErr result (self.new ≡ self.old) }
        ensures memory { IfErr result (λ fault. fault ≡ Fault.Memory) }
        ensures succeeds { 0 < self.old.room → HasPlace rid self.old.places → IsOk result }
    {
        let room = self.room.max(1);
        self.records.reserve(room)?;
        self.links.reserve(room)?;
        self.rids.reserve_at(rid)?;
        self.room = room;
        Ok(())
    }

    /// Makes places for writes of the transactions up to that number. One that wrote has a place already.
    pub fn reserve_txn(&mut self, txn: u64) -> Result<(), Fault>
        ensures ok { OnOk result (txn < self.new.txns) }
        ensures kept { self.old.txns ≤ self.new.txns }
        ensures records { self.new.records ≡ self.old.records }
        ensures room { self.new.room ≡ self.old.room }
        ensures places { self.new.places ≡ self.old.places }
        ensures err { OnErr result (self.new ≡ self.old) }
        ensures memory { IfErr result (λ fault. fault ≡ Fault.Memory) }
        ensures succeeds { txn < self.old.txns → IsOk result }
    {
        reserve_txn(&mut self.txns, txn)
    }

    /// Does nothing: its clause tells what every log keeps.
    pub fn laws(&self)
        ensures { UndoesNameEarlier self.now.records }
    {
        let _kept = &self.links;
    }

    /// How many records there are.
    pub fn len(&self) -> usize
        ensures { result ≡ length self.now.records }
    {
        self.records.len()
    }

    /// The number that the next record will have.
    pub fn next_number(&self) -> usize
        ensures { result ≡ length self.now.records + 1 }
    {
        let records = &self.records;
        records.len() + 1
    }

    /// The record of that number, from 1.
    pub fn rec(&self, number: usize) -> &LogRec
        requires low { 1 ≤ number }
        requires high { number ≤ length self.now.records }
        ensures { record_at self.now.records number ≡ Some result.now }
    {
        &self.records[number - 1]
    }

    /// The number of the transaction's newest standing write.
    pub fn newest(&self, txn: u64) -> Option<usize>
        ensures value { result ≡ newest_standing self.now.records txn }
        ensures write { IfSome result (IsWrite self.now.records) }
    {
        self.txn_head(txn).newest
    }

    /// The number of the transaction's last write, standing or not.
    pub fn last_of(&self, txn: u64) -> Option<usize>
        ensures value { result ≡ last_of self.now.records txn (length self.now.records + 1) }
        ensures write { IfSome result (IsWrite self.now.records) }
    {
        self.txn_head(txn).last
    }

    /// How many writes of the transaction stand.
    pub fn standing(&self, txn: u64) -> usize
        ensures { result ≡ standing_count self.now.records txn }
    {
        self.txn_head(txn).standing
    }

    /// The number of the last write at the RID, standing or not.
    pub fn last(&self, rid: Rid) -> Option<usize>
        ensures value { result ≡ last_at self.now.records rid (length self.now.records + 1) }
        ensures write { IfSome result (IsWrite self.now.records) }
    {
        self.rid_head(rid).last
    }

    /// The number of the newest standing write before that write, at the same RID.
    pub fn before(&self, number: usize) -> Option<usize>
        requires { IsSome (place_of (record_at self.now.records number)) }
        ensures value { result ≡ standing_before self.now.records number }
        ensures write { IfSome result (IsWrite self.now.records) }
    {
        self.before_on(Chain::AtRid, number)
    }

    /// The number of the same transaction's write before that write, standing or not.
    pub fn previous_of(&self, number: usize) -> Option<usize>
        requires { IsSome (place_of (record_at self.now.records number)) }
        ensures value { result ≡ last_of self.now.records (txn_of (record_at self.now.records number)) number }
        ensures write { IfSome result (IsWrite self.now.records) }
    {
        number_in(self.links[number - 1].previous)
    }

    /// Appends a record. Takes no memory.
    pub fn add(&mut self, added: LogRec)
        requires room { 0 < self.old.room }
        requires earlier { NamesEarlier (length self.old.records) added }
        requires place { HasPlaceFor added self.old.places self.old.txns }
        ensures added { Added self.old.records added self.new.records }
        ensures room { self.new.room + 1 ≡ self.old.room }
        ensures places { self.new.places ≡ self.old.places }
        ensures txns { self.new.txns ≡ self.old.txns }
    {
        let link = self.link_of(&added);
        let heads = self.heads_after(&added);
        mark_undone(&mut self.links, &added);
        set_txn_head(&mut self.txns, heads);
        set_rid_head(&mut self.rids, heads);
        self.records.push_reserved(added);
        self.links.push_reserved(link);
        self.room -= 1;
    }

    fn txn_head(&self, txn: u64) -> TxnHead
        ensures { result ≡ txn_head self.now.records txn }
    {
        txn_head(&self.txns, txn)
    }

    fn rid_head(&self, rid: Rid) -> RidHead
        ensures { result ≡ rid_head self.now.records rid }
    {
        self.rids.head(rid)
    }

    /// The newest standing write before that write, on the chain. Links lead past all but those undone since.
    fn before_on(&self, chain: Chain, number: usize) -> Option<usize>
        requires { IsSome (place_of (record_at self.now.records number)) }
        ensures { result ≡ newest_before chain self.now.records number }
    {
        let mut place = self.links[number - 1].before(chain);
        while let Some(earlier) = place {
            let link = self.links[earlier - 1];
            if !link.undone {
                return place;
            }
            place = link.before(chain);
        }
        None
    }

    /// The link of a record that comes next.
    fn link_of(&self, added: &LogRec) -> Link
        ensures { IsLinkOf self.now.records added.now result }
    {
        match added {
            LogRec::Write { txn, rid, .. } => {
                let of_txn = self.txn_head(*txn);
                Link {
                    of_txn: kept(of_txn.newest),
                    at_rid: kept(self.rid_head(*rid).newest),
                    previous: kept(of_txn.last),
                    undone: false,
                }
            }
            LogRec::Undo { .. } => Link::none(),
            LogRec::Commit { .. } => Link::none(),
            LogRec::Switch { .. } => Link::none(),
        }
    }

    /// The heads that the record changes.
    fn heads_after(&self, added: &LogRec) -> Option<Heads>
        requires { NamesEarlier (length self.now.records) added.now }
        ensures heads { AreHeadsAfter self.now.records (self.now.records ++ added.now ∷ []) result }
        ensures rid { IfSome result (λ heads. changed_rid self.now.records added.now ≡ Some heads.rid) }
        ensures by { IfSome result (λ heads. is_change_by heads.txn self.now.records added.now ≡ true) }
    {
        let number = self.records.len() + 1;
        match added {
            LogRec::Write { txn, rid, .. } => Some(self.heads_with(number, *txn, *rid)),
            LogRec::Undo { undone, .. } => self.heads_without(*undone),
            LogRec::Commit { .. } => None,
            LogRec::Switch { .. } => None,
        }
    }

    /// The heads of the two, with a write of that number that comes next.
    fn heads_with(&self, number: usize, txn: u64, rid: Rid) -> Heads
        requires { number ≡ length self.now.records + 1 }
        ensures txn { result.txn ≡ txn }
        ensures last { result.of_txn.last ≡ Some number }
        ensures newest { result.of_txn.newest ≡ Some number }
        ensures standing { result.of_txn.standing ≡ standing_count self.now.records txn + 1 }
        ensures rid { result.rid ≡ rid }
        ensures at_rid { result.at_rid ≡ record { last = Some number; newest = Some number } }
    {
        Heads {
            txn,
            of_txn: TxnHead {
                last: Some(number),
                newest: Some(number),
                standing: self.standing(txn) + 1,
            },
            rid,
            at_rid: RidHead {
                last: Some(number),
                newest: Some(number),
            },
        }
    }

    /// The heads of a standing write's transaction and RID, once it is undone; none for another record.
    fn heads_without(&self, number: usize) -> Option<Heads>
        requires low { 1 ≤ number }
        requires high { number ≤ length self.now.records }
        ensures heads { (txn : ℕ) → AreHeadsAfter self.now.records
            (self.now.records ++ LogRec.Undo txn number ∷ []) result }
        ensures rid { IfSome result (λ heads. place_of (record_at self.now.records number) ≡ Some heads.rid) }
        ensures by { IfSome result (λ heads. is_write_of heads.txn (record_at self.now.records number) ≡ true) }
    {
        if self.links[number - 1].undone {
            return None;
        }
        match &self.records[number - 1] {
            LogRec::Write { txn, rid, .. } => Some(Heads {
                txn: *txn,
                of_txn: self.txn_head_without(*txn, number),
                rid: *rid,
                at_rid: self.rid_head_without(*rid, number),
            }),
            LogRec::Undo { .. } => None,
            LogRec::Commit { .. } => None,
            LogRec::Switch { .. } => None,
        }
    }

    /// The head of the transaction once that standing write of it is undone.
    fn txn_head_without(&self, txn: u64, number: usize) -> TxnHead
        requires { stands_of self.now.records txn number ≡ true }
        ensures last { result.last ≡ last_of self.now.records txn (length self.now.records + 1) }
        ensures newest { result.newest ≡ newest_without (is_write_of txn) self.now.records number }
        ensures standing { result.standing ≡ standing_count self.now.records txn - 1 }
    {
        let head = self.txn_head(txn);
        TxnHead {
            last: head.last,
            standing: head.standing - 1,
            newest: if is_number(head.newest, number) {
                self.before_on(Chain::OfTxn, number)
            } else {
                head.newest
            },
        }
    }

    /// The head of the RID once that standing write there is undone.
    fn rid_head_without(&self, rid: Rid, number: usize) -> RidHead
        requires { stands_at self.now.records rid number ≡ true }
        ensures last { result.last ≡ last_at self.now.records rid (length self.now.records + 1) }
        ensures newest { result.newest ≡ newest_without (is_write_at rid) self.now.records number }
    {
        let head = self.rid_head(rid);
        RidHead {
            last: head.last,
            newest: if is_number(head.newest, number) {
                self.before(number)
            } else {
                head.newest
            },
        }
    }
}
