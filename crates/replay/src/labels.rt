ghost use Rattle.std.specs.Prelude.{◌≡◌, IfOk, IfErr, OnOk, Some, None};
ghost use Rattle.replay.specs.Labels.{IsNoted, NamesNone, NamesSame, Renames, named};

use keybytes::Fault;
use script::Label;
use std::alloc::Global;
use std::collections::BTreeMap;

/// Which transaction each label of a script names, if it names one.
#[derive(Drop)]
pub struct Labels {
    txns: BTreeMap<String, Option<u64>>,
}

impl Labels {
    pub fn new(alloc: Global) -> Labels
        ensures { NamesNone result }
    {
        Labels {
            txns: BTreeMap::new(alloc),
        }
    }

    /// The transaction that the label names; a label that names none is [`Fault::NoSuchTxn`].
    pub fn txn(&self, label: &Label) -> Result<u64, Fault>
        ensures ok { IfOk result (λ txn. named self.now label.now ≡ Some txn) }
        ensures refused { IfErr result (λ fault. (fault ≡ Fault.NoSuchTxn) × (named self.now label.now ≡ None)) }
    {
        match self.txns.get(label.as_str()) {
            Some(Some(txn)) => Ok(*txn),
            _ => Err(Fault::NoSuchTxn),
        }
    }

    /// Has the label name none, and makes room for what [`Labels::name`] says. Where there is no memory for that, it named
    /// none before.
    pub fn forget(&mut self, label: &Label) -> Result<(), Fault>
        ensures none { Renames self.old label.now None self.new }
        ensures noted { OnOk result (IsNoted self.new label.now) }
        ensures memory { IfErr result (λ fault. fault ≡ Fault.Memory) }
    {
        self.unname(label);
        self.make_room(label)
    }

    /// Has the label name none. Takes no memory.
    pub fn unname(&mut self, label: &Label)
        ensures { Renames self.old label.now None self.new }
    {
        if let Some(txn) = self.txns.get_mut(label.as_str()) {
            *txn = None;
        }
    }

    /// Makes room for what [`Labels::name`] says. Each label names what it named.
    pub fn make_room(&mut self, label: &Label) -> Result<(), Fault>
        ensures same { NamesSame self.old self.new }
        ensures noted { OnOk result (IsNoted self.new label.now) }
        ensures memory { IfErr result (λ fault. fault ≡ Fault.Memory) }
    {
        if self.txns.get(label.as_str()).is_some() {
            return Ok(());
        }
        let text = label.to_string()?;
        self.txns.insert(text, None)?;
        Ok(())
    }

    /// Has the label name the transaction. Takes no memory, since [`Labels::make_room`] has made room.
    pub fn name(&mut self, label: &Label, txn: u64)
        requires { IsNoted self.old label.now }
        ensures { Renames self.old label.now (Some txn) self.new }
    {
        if let Some(named) = self.txns.get_mut(label.as_str()) {
            *named = Some(txn);
        }
    }
}
