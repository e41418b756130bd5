//! What is noted under the lock of how far a build is.
ghost use Rattle.std.specs.Prelude.{◌≡◌, ◌≤◌, IfSome, Some, None, max, min, length, true, false};
ghost use Rattle.heap_table.specs.HeapState.{busy_txns};
ghost use Rattle.crew.specs.Credits.{WriteHasCredit, indexes_of_build, live_in};
ghost use Rattle.live_lemmas.specs.Putting.{KeepsRings};
ghost use Rattle.live_lemmas.specs.Settling.{waiting_in};

use crate::locked::{Credit, Locked};
use crate::{Opened, Progress};

impl<T: Opened> Locked<T> {
    /// How far the build is.
    pub(crate) fn progress(&self) -> Progress
        ensures { result.busy ≡ length (busy_txns self.now.state.heap) }
    {
        let mut progress = self.progress;
        progress.entries = progress.entries.saturating_add(self.live.entries_left());
        progress.busy = self.live.heap().busy();
        progress.waiting = self.waiting;
        progress
    }

    /// How many indexes the build that runs has.
    pub(crate) fn indexes(&self) -> usize
        ensures { result ≡ indexes_of_build self.now.state.build }
    {
        match self.live.specs() {
            Some(specs) => specs.len(),
            None => 0,
        }
    }

    /// Whether a session that wants to write has to wait for the build.
    pub(crate) fn is_spent(&self) -> bool
        ensures may { result ≡ false → WriteHasCredit self.now.state self.now.credit }
        ensures spent { result ≡ true → WriteHasCredit self.now.state self.now.credit → ⊥ }
        ensures some { result ≡ true → 512 ≤ waiting_in self.now.state }
    {
        let Some(credit) = self.credit else {
            return false;
        };
        credit.is_spent(self.live.entries_left(), self.indexes())
    }

    /// A session begins to wait for credit.
    pub(crate) fn note_waits(&mut self)
        ensures { self.new ≡ self.old }
    {
        self.waiting = self.waiting.saturating_add(1);
    }

    /// A session that waited doesn't any more.
    pub(crate) fn note_goes_on(&mut self)
        ensures { self.new ≡ self.old }
    {
        self.waiting = self.waiting.saturating_sub(1);
    }

    /// The build begins to catch up: sessions have credit from here on, which it is answered.
    pub(crate) fn give_credit(&mut self) -> Credit
        ensures state { self.new.state ≡ self.old.state }
        ensures rings { KeepsRings (live_in self.old) (live_in self.new) }
        ensures credit { result ≡ record { first = waiting_in self.old.state; taken = 0; applied = 0; turns = 0 } }
        ensures given { self.new.credit ≡ Some result }
    {
        let credit = Credit::new(self.live.entries_left());
        self.credit = Some(credit);
        credit
    }

    /// So many of the entries that the build took are applied by now: sessions have credit for them.
    pub(crate) fn see_applied(&mut self, count: usize)
        ensures state { self.new.state ≡ self.old.state }
        ensures rings { KeepsRings (live_in self.old) (live_in self.new) }
        ensures credit { IfSome self.old.credit (λ credit. self.new.credit ≡ Some (record credit { applied = max credit.applied (min count credit.taken) })) }
        ensures none { self.old.credit ≡ None → self.new.credit ≡ None }
    {
        if let Some(credit) = self.credit {
            self.credit = Some(credit.once_applied(count));
        }
    }

    /// An index has its pairs in order, which are so many.
    pub(crate) fn note_loaded(&mut self, pairs: usize)
        ensures { self.new ≡ self.old }
    {
        self.progress.note_loaded(pairs);
    }

    /// The try of that number begins. Sessions need no credit until more is given.
    pub(crate) fn note_try(&mut self, n: u32)
        ensures state { self.new.state ≡ self.old.state }
        ensures rings { KeepsRings (live_in self.old) (live_in self.new) }
        ensures lifted { self.new.credit ≡ None }
    {
        self.credit = None;
        self.progress.note_try(n);
    }
}
