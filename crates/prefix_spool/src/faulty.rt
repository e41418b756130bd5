ghost use Rattle.std.specs.Prelude.{◌≡◌, ◌↔◌, IsTrue};
ghost use Rattle.prefix_spool.specs.Faulty.{after_push, after_read, IsRefused};

use crate::Coming;
use keybytes::{Fault, Key, Pair, Rid};
use run_spool::Spool;
use spool_ledger::Account;

/// A spool with a fault to come. Its runs, its pages and its account are those of the spool inside.
///
/// Whether it is full is told by its value alone: it is, for each pair, where no push is left before its fault, and else where the spool inside is.
pub struct FaultySpool<S: Spool> {
    pub spool: S,
    pub coming: Coming,
}

impl<S: Spool> Drop for FaultySpool<S> {
    fn drop(self) {
        let FaultySpool {
            spool: _,
            coming: _,
        } = self;
    }
}

impl<S: Spool> FaultySpool<S> {
    /// That spool with that fault to come.
    pub fn new(spool: S, coming: Coming) -> FaultySpool<S>
        ensures spool { result.spool ≡ spool }
        ensures coming { result.coming ≡ coming }
    {
        FaultySpool { spool, coming }
    }

    /// The spool inside, as it is.
    pub fn into_inner(self) -> S
        ensures { result ≡ self.spool }
    {
        let FaultySpool { spool, coming: _ } = self;
        spool
    }

    /// The spool inside took a pair.
    fn note_push(&mut self)
        ensures spool { self.new.spool ≡ self.old.spool }
        ensures counted { self.new.coming ≡ after_push self.old.coming }
    {
        if let Coming::FullBehind(pushes) = self.coming {
            self.coming = Coming::FullBehind(pushes.saturating_sub(1));
        }
    }

    /// A read is asked for. Says whether it is the one that is refused.
    fn note_read(&mut self) -> bool
        ensures spool { self.new.spool ≡ self.old.spool }
        ensures counted { self.new.coming ≡ after_read self.old.coming }
        ensures refused { IsTrue result ↔ IsRefused self.old.coming }
    {
        match self.coming {
            Coming::MemoryBehind(0) => {
                self.coming = Coming::Nothing;
                true
            }
            Coming::MemoryBehind(reads) => {
                self.coming = Coming::MemoryBehind(reads - 1);
                false
            }
            _ => false,
        }
    }
}

impl<S: Spool> Spool for FaultySpool<S> {
    ghost use Rattle.std.specs.Prelude.{◌⊎◌};
    ghost use Rattle.prefix_spool.specs.Faulty.{IsFullNow};

    ghost runs = { λ faulty. S.runs faulty.spool };

    ghost open_run = { λ faulty. S.open_run faulty.spool };

    ghost is_full = { λ faulty pair. IsFullNow faulty.coming ⊎ S.is_full faulty.spool pair };

    ghost is_intact = { λ faulty. S.is_intact faulty.spool };

    ghost ended = { λ faulty. S.ended faulty.spool };

    ghost pages = { λ faulty. S.pages faulty.spool };

    ghost stake = { λ faulty. S.stake faulty.spool };

    fn is_empty(&self) -> bool {
        self.spool.is_empty()
    }

    fn push(&mut self, pair: Pair) -> Result<(), (Pair, Fault)> {
        if self.coming == Coming::FullBehind(0) {
            return Err((pair, Fault::NoPage));
        }
        self.spool.push(pair)?;
        self.note_push();
        Ok(())
    }

    fn end_run(&mut self) {
        self.spool.end_run();
    }

    fn run_count(&self) -> usize {
        self.spool.run_count()
    }

    fn run_len(&self, i: usize) -> usize {
        self.spool.run_len(i)
    }

    fn read(&mut self, i: usize, j: usize, key: &mut Key) -> Result<Rid, Fault> {
        if self.note_read() {
            return Err(Fault::Memory);
        }
        self.spool.read(i, j, key)
    }

    fn free_front(&mut self, i: usize, n: usize) {
        self.spool.free_front(i, n);
    }

    fn leased(&self) -> usize {
        self.spool.leased()
    }

    fn end(&mut self) {
        self.spool.end();
    }

    fn take_account(&mut self) -> Option<Account> {
        self.spool.take_account()
    }
}
