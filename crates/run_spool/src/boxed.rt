use crate::Spool;
use keybytes::{Fault, Key, Pair, Rid};
use spool_ledger::Account;

impl Spool for Box<dyn Spool + Send> {
    ghost runs = { λ spool. (Spool-box spool).runs spool.value };

    ghost open_run = { λ spool. (Spool-box spool).open_run spool.value };

    ghost is_full = { λ spool. (Spool-box spool).is_full spool.value };

    ghost is_intact = { λ spool. (Spool-box spool).is_intact spool.value };

    ghost ended = { λ spool. (Spool-box spool).ended spool.value };

    ghost pages = { λ spool. (Spool-box spool).pages spool.value };

    ghost stake = { λ spool. (Spool-box spool).stake spool.value };

    fn is_empty(&self) -> bool {
        (**self).is_empty()
    }

    fn push(&mut self, pair: Pair) -> Result<(), (Pair, Fault)> {
        (**self).push(pair)
    }

    fn end_run(&mut self) {
        (**self).end_run();
    }

    fn run_count(&self) -> usize {
        (**self).run_count()
    }

    fn run_len(&self, i: usize) -> usize {
        (**self).run_len(i)
    }

    fn read(&mut self, i: usize, j: usize, key: &mut Key) -> Result<Rid, Fault> {
        (**self).read(i, j, key)
    }

    fn free_front(&mut self, i: usize, n: usize) {
        (**self).free_front(i, n);
    }

    fn leased(&self) -> usize {
        (**self).leased()
    }

    fn end(&mut self) {
        (**self).end();
    }

    fn take_account(&mut self) -> Option<Account> {
        (**self).take_account()
    }
}
