//! What the calls of a session have in common.
ghost use Rattle.std.specs.Prelude.{◌≡◌, None, Some, is_some, MatchOption, MatchResult};
ghost use Rattle.keybytes.specs.Faults.{number_of};
ghost use Rattle.leased_core.specs.Leasing.{KeepsBuild};
ghost use Rattle.sfbuild_c.specs.Answers.{IsClosed, IsNotDone, KeepsCause, OnTable, RefusesRowBytes, SpellsRow, Steps};
ghost use Rattle.sfbuild_c.specs.Causes.{cause_of};

use crate::bare::Bare;
use crate::cause::Cause;
use crate::held::Held;
use crate::session::Session;
use crate::status::CLOSED;
use builder_core::{Event, Reply};
use kept_table::Kept;
use keybytes::{Fault, Row};
use std::alloc::Global;
use std::mem;

impl Session {
    pub(crate) fn is_open(&mut self) -> bool
        ensures value { result ≡ is_some self.old.held.table }
        ensures unchanged { self.new ≡ self.old }
    {
        self.opened
    }

    /// Takes the table out; none is open then.
    pub(crate) fn take(&mut self, alloc: Global) -> Option<Box<Kept>>
        ensures table { MatchOption result (self.old.held.table ≡ None) (λ table. self.old.held.table ≡ Some table.value) }
        ensures closed { self.new.held.table ≡ None }
        ensures cause { self.new.cause ≡ self.old.cause }
    {
        let closed = Session {
            held: Held::none(alloc),
            opened: false,
            cause: self.cause,
        };
        let Session { held, opened, .. } = mem::replace(self, closed);
        if opened {
            Some(held.into_bare().into_box())
        } else {
            None
        }
    }

    /// Puts a table in.
    pub(crate) fn put(&mut self, table: Box<Kept>)
        ensures table { self.new.held.table ≡ Some table.value }
        ensures cause { self.new.cause ≡ self.old.cause }
    {
        *self = Session {
            held: Held::of(Bare::of(table)),
            opened: true,
            cause: self.cause,
        };
    }

    /// Tells the fault, by its number and by what stands in the session.
    pub(crate) fn tell(&mut self, fault: Fault) -> u8
        ensures number { result ≡ number_of fault }
        ensures cause { self.new ≡ record self.old { cause = cause_of fault } }
    {
        self.cause = Cause::of(fault);
        fault.number()
    }

    /// Does one event that neither starts a build nor ends one, or nothing where no table is open.
    pub(crate) fn step(&mut self, alloc: Global, event: Event) -> Option<Reply>
        requires { KeepsBuild event }
        ensures { MatchOption result (IsClosed self.old self.new) (λ reply. OnTable (Steps event reply) self.old self.new × KeepsCause self.old self.new) }
    {
        let mut table = self.take(alloc)?;
        let reply = table.step(event);
        self.put(table);
        Some(reply)
    }

    /// Reads bytes as a row of the table; the status where that is refused or none is open.
    pub(crate) fn read_row(&mut self, alloc: Global, bytes: &[u8]) -> Result<Row, u8>
        ensures { MatchResult result
            (λ row. SpellsRow bytes.now row self.old × (self.new.held.table ≡ self.old.held.table) × KeepsCause self.old self.new)
            (λ status. IsNotDone (RefusesRowBytes bytes.now) status self.old self.new) }
    {
        let Some(mut table) = self.take(alloc) else {
            return Err(CLOSED);
        };
        let row = table.read_row(bytes);
        self.put(table);
        match row {
            Ok(row) => Ok(row),
            Err(fault) => Err(self.tell(fault)),
        }
    }
}
