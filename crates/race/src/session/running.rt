ghost use Rattle.std.specs.Prelude.{◌≡◌, [], IfOk, OnOk, OnErr};
ghost use Rattle.heap_log.specs.Standing.{standing_count};
ghost use Rattle.replay.specs.Labels.{NamesNone};
ghost use Rattle.race.specs.Commands.{LosesNothing, Obeys, OnlySees, Refuses, RollsBack, RollsBackAll, StepsBack, state_of, still_active, without};

use crew::{Opened, Receipt, Session, UndoStep};
use keybytes::{Cell, Fault, Rid, Row};
use replay::Labels;
use script::{Label, SessionCommand};
use std::alloc::Global;
use std::mem;
use std::sync::Wait;

/// How often a step of a rollback that is refused for want of memory is tried again.
const RETRIES: u32 = 1_000;

/// What a session of a race has done so far.
#[derive(Drop)]
pub struct Running<T: Opened> {
    alloc: Global,
    pub labels: Labels,
    /// The transactions that it began and that haven't ended.
    pub open_txns: Vec<u64>,
    pub receipts: Vec<Receipt<T>>,
}

impl<T: Opened> Running<T> {
    pub fn new(alloc: Global) -> Running<T>
        ensures labels { NamesNone result.labels }
        ensures active { result.open_txns.items ≡ [] }
        ensures receipts { result.receipts.items ≡ [] }
    {
        Running {
            alloc,
            labels: Labels::new(alloc),
            open_txns: Vec::new(alloc),
            receipts: Vec::new(alloc),
        }
    }

    /// Does what a command of the session asks for. A refused one keeps no receipt; a label that was to name a transaction then names none.
    /// Room for the receipt is made before.
    pub fn obey<R: Wait>(
        &mut self,
        rt: &R,
        session: &mut Session<'_, T>,
        command: SessionCommand,
    ) -> Result<(), Fault>
        ensures ok { OnOk result (Obeys command
            (state_of self.old.labels self.old.open_txns.items session.old self.old.receipts.items)
            (state_of self.new.labels self.new.open_txns.items session.new self.new.receipts.items)) }
        ensures refused { OnErr result (Refuses command
            (state_of self.old.labels self.old.open_txns.items session.old self.old.receipts.items)
            (state_of self.new.labels self.new.open_txns.items session.new self.new.receipts.items)) }
    {
        match command {
            SessionCommand::Begin { label } => self.begin(rt, session, &label),
            SessionCommand::Insert { label, cells } => self.insert(rt, session, &label, cells),
            SessionCommand::Update { label, rid, cells } => {
                self.update(rt, session, &label, rid, cells)
            }
            SessionCommand::Delete { label, rid } => self.delete(rt, session, &label, rid),
            SessionCommand::Undo { label } => self.undo(rt, session, &label),
            SessionCommand::Commit { label } => self.commit(rt, session, &label),
        }
    }

    /// Begins a transaction that the label names; where that is refused, it names none.
    fn begin<R: Wait>(
        &mut self,
        rt: &R,
        session: &mut Session<'_, T>,
        label: &Label,
    ) -> Result<(), Fault>
        ensures ok { OnOk result (Obeys (SessionCommand.Begin label.now)
            (state_of self.old.labels self.old.open_txns.items session.old self.old.receipts.items)
            (state_of self.new.labels self.new.open_txns.items session.new self.new.receipts.items)) }
        ensures refused { OnErr result (Refuses (SessionCommand.Begin label.now)
            (state_of self.old.labels self.old.open_txns.items session.old self.old.receipts.items)
            (state_of self.new.labels self.new.open_txns.items session.new self.new.receipts.items)) }
    {
        self.labels.forget(label)?;
        self.open_txns.reserve(1)?;
        let txn = session.begin(rt)?;
        self.labels.name(label, txn);
        self.open_txns.push_reserved(txn);
        Ok(())
    }

    fn insert<R: Wait>(
        &mut self,
        rt: &R,
        session: &mut Session<'_, T>,
        label: &Label,
        cells: Vec<Cell>,
    ) -> Result<(), Fault>
        ensures ok { OnOk result (Obeys (SessionCommand.Insert label.now cells)
            (state_of self.old.labels self.old.open_txns.items session.old self.old.receipts.items)
            (state_of self.new.labels self.new.open_txns.items session.new self.new.receipts.items)) }
        ensures refused { OnErr result (Refuses (SessionCommand.Insert label.now cells)
            (state_of self.old.labels self.old.open_txns.items session.old self.old.receipts.items)
            (state_of self.new.labels self.new.open_txns.items session.new self.new.receipts.items)) }
    {
        let row = Row::new(cells)?;
        let txn = self.labels.txn(label)?;
        self.receipts.reserve(1)?;
        let receipt = session.insert(rt, txn, row)?;
        self.receipts.push_reserved(receipt);
        Ok(())
    }

    fn update<R: Wait>(
        &mut self,
        rt: &R,
        session: &mut Session<'_, T>,
        label: &Label,
        rid: Rid,
        cells: Vec<Cell>,
    ) -> Result<(), Fault>
        ensures ok { OnOk result (Obeys (SessionCommand.Update label.now rid cells)
            (state_of self.old.labels self.old.open_txns.items session.old self.old.receipts.items)
            (state_of self.new.labels self.new.open_txns.items session.new self.new.receipts.items)) }
        ensures refused { OnErr result (Refuses (SessionCommand.Update label.now rid cells)
            (state_of self.old.labels self.old.open_txns.items session.old self.old.receipts.items)
            (state_of self.new.labels self.new.open_txns.items session.new self.new.receipts.items)) }
    {
        let row = Row::new(cells)?;
        let txn = self.labels.txn(label)?;
        self.receipts.reserve(1)?;
        let receipt = session.update(rt, txn, rid, row)?;
        self.receipts.push_reserved(receipt);
        Ok(())
    }

    fn delete<R: Wait>(
        &mut self,
        rt: &R,
        session: &mut Session<'_, T>,
        label: &Label,
        rid: Rid,
    ) -> Result<(), Fault>
        ensures ok { OnOk result (Obeys (SessionCommand.Delete label.now rid)
            (state_of self.old.labels self.old.open_txns.items session.old self.old.receipts.items)
            (state_of self.new.labels self.new.open_txns.items session.new self.new.receipts.items)) }
        ensures refused { OnErr result (Refuses (SessionCommand.Delete label.now rid)
            (state_of self.old.labels self.old.open_txns.items session.old self.old.receipts.items)
            (state_of self.new.labels self.new.open_txns.items session.new self.new.receipts.items)) }
    {
        let txn = self.labels.txn(label)?;
        self.receipts.reserve(1)?;
        let receipt = session.delete(rt, txn, rid)?;
        self.receipts.push_reserved(receipt);
        Ok(())
    }

    fn commit<R: Wait>(
        &mut self,
        rt: &R,
        session: &mut Session<'_, T>,
        label: &Label,
    ) -> Result<(), Fault>
        ensures ok { OnOk result (Obeys (SessionCommand.Commit label.now)
            (state_of self.old.labels self.old.open_txns.items session.old self.old.receipts.items)
            (state_of self.new.labels self.new.open_txns.items session.new self.new.receipts.items)) }
        ensures refused { OnErr result (Refuses (SessionCommand.Commit label.now)
            (state_of self.old.labels self.old.open_txns.items session.old self.old.receipts.items)
            (state_of self.new.labels self.new.open_txns.items session.new self.new.receipts.items)) }
    {
        let txn = self.labels.txn(label)?;
        self.receipts.reserve(1)?;
        let receipt = session.commit(rt, txn)?;
        self.receipts.push_reserved(receipt);
        self.end(txn);
        Ok(())
    }

    /// Undoes one write; with the last one the transaction has ended.
    fn undo<R: Wait>(
        &mut self,
        rt: &R,
        session: &mut Session<'_, T>,
        label: &Label,
    ) -> Result<(), Fault>
        ensures ok { OnOk result (Obeys (SessionCommand.Undo label.now)
            (state_of self.old.labels self.old.open_txns.items session.old self.old.receipts.items)
            (state_of self.new.labels self.new.open_txns.items session.new self.new.receipts.items)) }
        ensures refused { OnErr result (Refuses (SessionCommand.Undo label.now)
            (state_of self.old.labels self.old.open_txns.items session.old self.old.receipts.items)
            (state_of self.new.labels self.new.open_txns.items session.new self.new.receipts.items)) }
    {
        let txn = self.labels.txn(label)?;
        let left = self.undo_step(rt, session, txn)?;
        self.end_without(txn, left);
        Ok(())
    }

    /// One step of a rollback; answered with how many writes are left.
    fn undo_step<R: Wait>(
        &mut self,
        rt: &R,
        session: &mut Session<'_, T>,
        txn: u64,
    ) -> Result<usize, Fault>
        ensures ok { OnOk result (StepsBack txn
            (record { log = session.old; receipts = self.old.receipts.items }) (record { log = session.new; receipts = self.new.receipts.items })) }
        ensures refused { OnErr result (OnlySees
            (record { log = session.old; receipts = self.old.receipts.items }) (record { log = session.new; receipts = self.new.receipts.items })) }
        ensures left { IfOk result (λ left. left ≡ standing_count session.new txn) }
        ensures labels { self.new.labels ≡ self.old.labels }
        ensures active { self.new.open_txns ≡ self.old.open_txns }
    {
        self.receipts.reserve(1)?;
        let UndoStep { receipt, left } = session.undo(rt, txn)?;
        if let Some(receipt) = receipt {
            self.receipts.push_reserved(receipt);
        }
        Ok(left)
    }

    /// The transaction isn't open any more, once none of its writes is left.
    fn end_without(&mut self, txn: u64, left: usize)
        ensures active { self.new.open_txns.items ≡ still_active txn left self.old.open_txns.items }
        ensures labels { self.new.labels ≡ self.old.labels }
        ensures receipts { self.new.receipts ≡ self.old.receipts }
    {
        if left == 0 {
            self.end(txn);
        }
    }

    /// The transaction isn't open any more.
    fn end(&mut self, txn: u64)
        ensures active { self.new.open_txns.items ≡ without txn self.old.open_txns.items }
        ensures labels { self.new.labels ≡ self.old.labels }
        ensures receipts { self.new.receipts ≡ self.old.receipts }
    {
        self.open_txns.retain(|other| *other != txn);
    }

    /// Undoes the transactions that are open, step by step. One for whose steps there is no memory stays open.
    pub fn roll_back_all<R: Wait>(&mut self, rt: &R, session: &mut Session<'_, T>)
        ensures kept { LosesNothing
            (record { log = session.old; receipts = self.old.receipts.items }) (record { log = session.new; receipts = self.new.receipts.items }) }
        ensures rolls_back { RollsBackAll self.old.open_txns.items
            (record { log = session.old; receipts = self.old.receipts.items }) (record { log = session.new; receipts = self.new.receipts.items }) }
    {
        let open_txns = mem::replace(&mut self.open_txns, Vec::new(self.alloc));
        for txn in open_txns {
            let _stays_open = self.roll_back(rt, session, txn);
        }
    }

    /// Undoes the writes of a transaction that stand, step by step, until it has ended. Where a step is refused, it stays open.
    fn roll_back<R: Wait>(
        &mut self,
        rt: &R,
        session: &mut Session<'_, T>,
        txn: u64,
    ) -> Result<(), Fault>
        ensures ended { OnOk result (standing_count session.new txn ≡ 0) }
        ensures kept { LosesNothing
            (record { log = session.old; receipts = self.old.receipts.items }) (record { log = session.new; receipts = self.new.receipts.items }) }
        ensures rolls_back { RollsBack txn
            (record { log = session.old; receipts = self.old.receipts.items }) (record { log = session.new; receipts = self.new.receipts.items }) }
    {
        for _ in 0..u64::MAX {
            if self.undo_patiently(rt, session, txn)? == 0 {
                return Ok(());
            }
        }
        Err(Fault::TxnEnding)
    }

    /// One step of a rollback, tried again where memory is wanted.
    fn undo_patiently<R: Wait>(
        &mut self,
        rt: &R,
        session: &mut Session<'_, T>,
        txn: u64,
    ) -> Result<usize, Fault>
        ensures left { IfOk result (λ left. left ≡ standing_count session.new txn) }
        ensures kept { LosesNothing
            (record { log = session.old; receipts = self.old.receipts.items }) (record { log = session.new; receipts = self.new.receipts.items }) }
        ensures rolls_back { RollsBack txn
            (record { log = session.old; receipts = self.old.receipts.items }) (record { log = session.new; receipts = self.new.receipts.items }) }
    {
        for _ in 0..RETRIES {
            match self.undo_step(rt, session, txn) {
                Err(Fault::Memory) => {}
                told => return told,
            }
        }
        self.undo_step(rt, session, txn)
    }
}
