ghost use Rattle.std.specs.Prelude.{◌≡◌, ◌<◌, ◌≤◌, ◌↔◌, ℕ, List, [], length, if◌then◌else◌, IfOk, IfErr, IsTrue};
ghost use Rattle.keybytes.specs.declared.pair.Pair.{Pair};
ghost use Rattle.spool_ledger.specs.declared.kind.SpoolKind.{SpoolKind};
ghost use Rattle.run_spool.specs.Pages.{PageValue, IsPairAt, last_key, page_with, with_pair, without_first};

use keybytes::{Fault, Key, Pair, Rid};
use spool_ledger::Page;
use std::alloc::Global;

/// Pairs in the bytes of a leased page, one behind the other. What a pair looks like there may depend on the key before it on the
/// same page. No call but `read` takes memory.
pub trait PageOfPairs: Drop {
    /// The pairs that aren't freed, and how many bytes behind them are free.
    ghost value: { Self → PageValue };

    /// How a spool with such pages keeps its pairs.
    ghost kind: { SpoolKind };

    /// How many bytes a pair takes behind a key, which is empty for the first pair of a page.
    ghost pair_size: { List ℕ → Pair → ℕ };

    /// A page with just that pair.
    fn new(alloc: Global, page: Page, pair: &Pair) -> Self
        ensures made { value result ≡ page_with pair_size pair.now }
        ensures fits { pair_size [] pair.now ≤ 4096 };

    /// The number of pairs.
    fn len(&self) -> usize
        ensures { result ≡ length (value self.now).pairs };

    /// Writes a pair behind the others, of which the last has the key `last`, and tells whether it had room.
    fn push(&mut self, last: &Key, pair: &Pair) -> bool
        requires { last.now ≡ last_key (value self.old).pairs }
        ensures fits { IsTrue result ↔ (pair_size last.now pair.now ≤ (value self.old).room) }
        ensures page { value self.new ≡ (if result then with_pair pair_size (value self.old) pair.now else value self.old) };

    /// Reads a pair. An `Err` says that there is no memory for a key, and leaves the pairs as they are.
    fn read(&mut self, n: usize, key: &mut Key) -> Result<Rid, Fault>
        requires { n < length (value self.old).pairs }
        ensures pair { IfOk result (λ rid. IsPairAt (value self.old).pairs n key.new rid) }
        ensures memory { IfErr result (λ fault. fault ≡ Fault.Memory) }
        ensures same { value self.new ≡ value self.old };

    /// Lets the first pairs go, but not all.
    fn free_front(&mut self, n: usize)
        requires { n < length (value self.old).pairs }
        ensures { value self.new ≡ without_first (value self.old) n };

    /// The page, whose bytes mean nothing any more.
    fn into_page(self) -> Page;

    /// No pair takes no byte.
    ghost takes_bytes: { (before : List ℕ) (pair : Pair) → 0 < pair_size before pair };
}
