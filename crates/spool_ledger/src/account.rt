ghost use Rattle.std.specs.Prelude.{◌≡◌, ◌↔◌, ◌+◌, ◌-◌, ◌^◌, ◌<◌, ◌≤◌, IsOk, IfOk, IfErr, OnOk, OnErr, vec_len, vec_capacity};
ghost use Rattle.spool_ledger.specs.Accounts.{leased, filled, unfilled, new_account, with_free};

use crate::Page;
use keybytes::Fault;
use std::alloc::Global;
use std::marker::Model;

/// A quota of a pool's pages: some are leased, the others are free and lie here. Contracts see the pool's number, the quota
/// and how many pages are free.
#[derive(Drop)]
pub struct Account {
    pool: u64,
    quota: u32,
    free: Vec<Page>,
}

impl Model for Account {
    ghost use Rattle.std.specs.Prelude.{vec_len, vec_capacity};
    ghost use Rattle.spool_ledger.specs.Accounts.{AccountValue, IsAccount};

    ghost Value = { AccountValue };

    ghost view = { λ account. record { pool = account.pool; quota = account.quota; free = vec_len account.free } };

    ghost invariant = { λ account. IsAccount account.quota (vec_len account.free) (vec_capacity account.free) };
}

impl Account {
    /// An account of that pool with no page. It takes no memory.
    pub fn empty(alloc: Global, pool: u64) -> Account
        ensures { result ≡ new_account pool 0 }
    {
        Account {
            pool,
            quota: 0,
            free: Vec::new(alloc),
        }
    }

    /// The number of its pool.
    pub fn pool(&self) -> u64
        ensures { result ≡ self.now.pool }
    {
        self.pool
    }

    /// How many pages it has, leased or free.
    pub fn quota(&self) -> u32
        ensures { result ≡ self.now.quota }
    {
        self.quota
    }

    /// How many of its pages are free.
    pub fn free(&self) -> usize
        ensures { result ≡ self.now.free }
    {
        self.free.len()
    }

    /// Does nothing: its clauses tell what every account keeps.
    pub fn laws(&self)
        ensures law { leased self.now + self.now.free ≡ self.now.quota }
        ensures counted { self.now.quota < 2 ^ 32 }
    {
        let _quota = self.quota;
    }

    /// Takes a page out. [`Fault::NoPage`] where none is free.
    pub fn lease(&mut self) -> Result<Page, Fault>
        ensures exact { IsOk result ↔ (0 < self.old.free) }
        ensures ok { OnOk result (self.new ≡ with_free self.old (self.old.free - 1)) }
        ensures no_page { IfErr result (λ fault. fault ≡ Fault.NoPage) }
        ensures err { OnErr result (self.new ≡ self.old) }
    {
        self.free.pop().ok_or(Fault::NoPage)
    }

    /// Takes back a page that was leased here.
    pub fn give_back(&mut self, page: Page)
        requires { 0 < leased self.old }
        ensures { self.new ≡ with_free self.old (self.old.free + 1) }
    {
        self.free.push_reserved(page);
    }

    /// An account that has no page yet, with room for its quota.
    pub(crate) fn with_room(alloc: Global, pool: u64, quota: u32) -> Result<Account, Fault>
        ensures made { IfOk result (λ account. account ≡ unfilled pool quota) }
        ensures memory { IfErr result (λ fault. fault ≡ Fault.Memory) }
    {
        let free = Vec::with_capacity(alloc, quota as usize)?;
        Ok(Account { pool, quota, free })
    }

    /// Takes pages out of the pool's until the quota is here.
    pub(crate) fn fill(&mut self, pages: &mut Vec<Page>)
        requires enough { leased self.old ≤ vec_len pages.old }
        ensures whole { self.new ≡ filled self.old }
        ensures taken { vec_len pages.new + leased self.old ≡ vec_len pages.old }
        ensures room { vec_capacity pages.new ≡ vec_capacity pages.old }
    {
        for _ in self.free.len()..self.quota as usize {
            let Some(next) = pages.pop() else {
                unreachable!()
            };
            self.free.push_reserved(next);
        }
    }

    /// Puts the free pages among the pool's, which have room for them.
    pub(crate) fn into_pages(mut self, pages: &mut Vec<Page>)
        requires room { vec_len pages.old + self.free ≤ vec_capacity pages.old }
        ensures given { vec_len pages.new ≡ vec_len pages.old + self.free }
        ensures room { vec_capacity pages.new ≡ vec_capacity pages.old }
    {
        while let Some(page) = self.free.pop() {
            pages.push_reserved(page);
        }
    }
}
