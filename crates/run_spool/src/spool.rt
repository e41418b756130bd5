ghost use Rattle.std.specs.Prelude.{◌≡◌, ℕ, ◌+◌, ◌<◌, ◌≤◌, ◌++◌, ◌∷◌, ◌↔◌, [], List, length, drop, get_or, set};
ghost use Rattle.std.specs.Prelude.{Option, MatchOption, option_map, IfOk, IfErr, OnOk, OnErr, IsOk, IsTrue};
ghost use Rattle.keybytes.specs.declared.pair.Pair.{Pair};
ghost use Rattle.spool_ledger.specs.Accounts.{IsWhole, Stake, share_in, share_of};
ghost use Rattle.run_spool.specs.Pages.{IsPairAt};
ghost use Rattle.run_spool.specs.Spools.{NoneEmpty, NoneFreed, with_closed_run, without_pages};

use keybytes::{Fault, Key, Pair, Rid};
use spool_ledger::Account;

/// Runs of pairs: closed ones, which keep their numbers, and an open one. `push`, `end_run` and `free_front` take no memory.
pub trait Spool: Drop {
    /// The pairs of each closed run that aren't freed.
    ghost runs: { Self → List (List Pair) };

    /// The pairs of the open run.
    ghost open_run: { Self → List Pair };

    /// No room is left for that pair.
    ghost is_full: { Self → Pair → Type 0 };

    /// The closed runs take the room that they took when they were closed, as where no pair of them was freed.
    ghost is_intact: { Self → Type 0 };

    /// Every page that was leased is back.
    ghost ended: { Self → Type 0 };

    /// How many pages are leased.
    ghost pages: { Self → ℕ };

    /// How it keeps its pairs, with pool and quota of the account behind it, if there is one.
    ghost stake: { Self → Option Stake };

    /// Whether there is no closed run, not even one whose pairs are all freed, and no pair in the open run.
    fn is_empty(&self) -> bool
        ensures { IsTrue result ↔ ((runs self.now ≡ []) × (open_run self.now ≡ [])) };

    /// Puts a pair behind those of the open run. [`Fault::NoPage`] where the spool is full for it; the pair comes back then.
    fn push(&mut self, pair: Pair) -> Result<(), (Pair, Fault)>
        requires { NoneEmpty (runs self.old) }
        ensures ok { OnOk result (open_run self.new ≡ open_run self.old ++ pair ∷ []) }
        ensures room { OnOk result (is_full self.old pair → ⊥) }
        ensures full { OnErr result (is_full self.old pair) }
        ensures still { OnErr result (is_full self.new pair) }
        ensures back { IfErr result (λ refused. (refused.0 ≡ pair) × (refused.1 ≡ Fault.NoPage)) }
        ensures err { OnErr result (open_run self.new ≡ open_run self.old) }
        ensures runs { runs self.new ≡ runs self.old }
        ensures intact { is_intact self.old → is_intact self.new }
        ensures stake { stake self.new ≡ stake self.old };

    /// Closes the open run, if it has a pair.
    fn end_run(&mut self)
        ensures runs { runs self.new ≡ with_closed_run (runs self.old) (open_run self.old) }
        ensures open_run { open_run self.new ≡ [] }
        ensures intact { NoneFreed is_intact runs self.old → is_intact self.new }
        ensures stake { stake self.new ≡ stake self.old };

    /// The number of closed runs.
    fn run_count(&self) -> usize
        ensures { result ≡ length (runs self.now) };

    /// The number of pairs of closed run `i` that aren't freed.
    fn run_len(&self, i: usize) -> usize
        requires { i < length (runs self.now) }
        ensures { result ≡ length (get_or (runs self.now) i []) };

    /// Reads pair `j` of closed run `i`: its key into `key`, for which there may be no memory.
    fn read(&mut self, i: usize, j: usize, key: &mut Key) -> Result<Rid, Fault>
        requires run { i < length (runs self.old) }
        requires pair { j < length (get_or (runs self.old) i []) }
        ensures pair { IfOk result (λ rid. IsPairAt (get_or (runs self.old) i []) j key.new rid) }
        ensures memory { IfErr result (λ fault. fault ≡ Fault.Memory) }
        ensures runs { runs self.new ≡ runs self.old }
        ensures open_run { open_run self.new ≡ open_run self.old }
        ensures intact { is_intact self.old → is_intact self.new }
        ensures stake { stake self.new ≡ stake self.old };

    /// Frees the first `n` pairs of closed run `i`, which keeps its number even where none is left.
    fn free_front(&mut self, i: usize, n: usize)
        requires run { i < length (runs self.old) }
        requires pairs { n ≤ length (get_or (runs self.old) i []) }
        ensures runs { runs self.new ≡ set (runs self.old) i (drop n (get_or (runs self.old) i [])) }
        ensures open_run { open_run self.new ≡ open_run self.old }
        ensures stake { stake self.new ≡ stake self.old };

    /// How many pages are leased now.
    fn leased(&self) -> usize
        ensures { result ≡ pages self.now };

    /// Gives each leased page back, with all pairs.
    fn end(&mut self)
        ensures ended { ended self.new }
        ensures pages { pages self.new ≡ 0 }
        ensures runs { runs self.new ≡ [] }
        ensures open_run { open_run self.new ≡ [] }
        ensures stake { stake self.new ≡ stake self.old };

    /// Hands over the account behind the spool, if there is one, and keeps one with no page.
    fn take_account(&mut self) -> Option<Account>
        requires { ended self.old }
        ensures share { option_map share_in (stake self.old) ≡ option_map share_of result }
        ensures whole { MatchOption result (Unit {0}) IsWhole }
        ensures left { stake self.new ≡ without_pages (stake self.old) }
        ensures ended { ended self.new };
}
