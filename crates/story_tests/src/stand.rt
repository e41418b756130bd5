//! A core with its spools, and what a story has made of it so far.

use crate::events::{event, key_spec};
use crate::listing::{listed, listed_entries, shared_lines};
use crate::made::{Made, come_back};
use crate::place::Faults;
use crate::story::{Stock, stock_of};
use builder_core::{Core, Ends, Event, Live, Pair, Reply, TableRings};
use heap_log::{Outcome, Verdicts};
use keybytes::{Fault, KeySpec};
use replay::Answer;
use run_spool::Spool;
use script::{Command, Start};
use std::alloc::Global;

/// A table with its core. It notes what the answers mean for the build, the fence and the ready indexes.
pub struct Stand<S: Spool, T: TableRings> {
    pub alloc: Global,
    pub core: Core<S, T>,
    /// The spools that the core has.
    stock: Stock,
    /// What comes to the spools of its builds.
    faults: Faults,
    /// Whether all spools came back that others were put in the place of.
    are_back: bool,
    pub is_running: bool,
    pub is_fenced: bool,
    /// How many indexes are ready.
    pub ready: usize,
    /// The number of the transaction that was begun beside those of the story, from which on these have a number more.
    pub beside: u64,
    /// Whether a fault came, or memory was wanted, or a build that ran was stopped.
    pub is_broken: bool,
    /// Whether a build was spoiled and given up, so that the story ends.
    pub is_over: bool,
}

impl<S: Made, T: TableRings> Stand<S, T> {
    /// The table with these spools.
    pub fn new(
        alloc: Global,
        live: Live<T>,
        ends: Ends<T>,
        spools: Vec<S>,
        stock: Stock,
        faults: Faults,
    ) -> Stand<S, T> {
        Stand {
            alloc,
            core: Core::new(live, ends, spools),
            stock,
            faults,
            are_back: true,
            is_running: false,
            is_fenced: false,
            ready: 0,
            beside: u64::MAX,
            is_broken: false,
            is_over: false,
        }
    }

    /// Whether the core is as the answers say.
    pub fn is_as_told(&self) -> bool {
        self.are_back
            && self.core.is_building() == self.is_running
            && self.core.live().ready().len() == self.ready
    }

    /// What the core answers to a command.
    pub fn answer(&mut self, command: &Command) -> Answer {
        match self.does(command) {
            Ok(answer) => answer,
            Err(fault) => Answer::Refused { fault },
        }
    }

    fn does(&mut self, command: &Command) -> Result<Answer, Fault> {
        match command {
            Command::Get { rid } => {
                return Ok(Answer::Cells {
                    row: self.core.get(*rid)?,
                });
            }
            Command::Side { index } => {
                return listed_entries(self.alloc, self.core.side(*index)?);
            }
            Command::Pairs { number } => return listed(self.alloc, &self.ready_pairs(*number)?),
            Command::Rest { spec } => {
                let spec = key_spec(self.alloc, self.core.live().heap().schema(), spec)?;
                return listed(self.alloc, &self.rest_of(&spec)?);
            }
            Command::Start(start) => self.supply(start)?,
            _ => {}
        }
        let schema = self.core.live().heap().schema();
        let event = event(self.alloc, schema, command, self.beside)?;
        Ok(self.step(event))
    }

    /// New spools for a start, which has a quota, where no build runs.
    fn supply(&mut self, start: &Start) -> Result<(), Fault> {
        if start.quota == 0 || self.core.is_building() {
            return Ok(());
        }
        let mut stock = stock_of(start);
        let others = self
            .core
            .exchange_spools(S::made(self.alloc, &mut stock, &self.faults)?);
        self.are_back &= come_back(others, &self.stock);
        self.stock = stock;
        Ok(())
    }

    /// Does one event.
    pub fn step(&mut self, event: Event) -> Answer {
        let reply = self.core.step(event);
        self.answer_to(reply)
    }

    /// What a reply tells.
    pub fn answer_to(&mut self, reply: Reply) -> Answer {
        match reply {
            Reply::Begun { txn } => Answer::Number {
                number: self.txn_told(txn),
            },
            Reply::Written { number, rid } => Answer::Written { number, rid },
            Reply::Undone { number, left } => Answer::Undone { number, left },
            Reply::Started { pages } => {
                self.is_running = true;
                Answer::Number {
                    number: u64::from(pages),
                }
            }
            Reply::Scanned { page } => Answer::Number {
                number: u64::from(page),
            },
            Reply::Committed { number: count }
            | Reply::Digested { images: count }
            | Reply::Sealed { images: count }
            | Reply::Loaded { pairs: count }
            | Reply::Fed { entries: count }
            | Reply::Applied { entries: count } => Answer::Number {
                number: count as u64,
            },
            Reply::Switched { number, verdicts } => self.switched(number, verdicts),
            Reply::FenceSet => {
                self.is_fenced = true;
                Answer::Done
            }
            Reply::Abandoned => {
                self.ended();
                Answer::Abandoned {
                    pages: self.leased(),
                }
            }
            Reply::Refused { fault } => Answer::Refused {
                fault: self.fault_told(fault),
            },
        }
    }

    /// How many pages the spools have leased that were handed in.
    fn leased(&self) -> usize {
        let mut leased: usize = 0;
        for spool in self.core.spools() {
            leased = leased.saturating_add(spool.leased());
        }
        leased
    }

    /// No build runs any more.
    pub fn ended(&mut self) {
        self.is_running = false;
        self.is_fenced = false;
    }

    fn switched(&mut self, number: usize, verdicts: Verdicts) -> Answer {
        self.ended();
        for verdict in verdicts.as_slice() {
            if let Outcome::Ready(_) = verdict {
                self.ready = self.ready.saturating_add(1);
            }
        }
        let pages = self.leased();
        match shared_lines(self.alloc, verdicts.as_slice()) {
            Ok(shared) if !shared.is_empty() => Answer::SomeRefused {
                number,
                verdicts,
                shared,
                pages,
            },
            _ => Answer::Switched {
                number,
                verdicts,
                pages,
            },
        }
    }

    /// A transaction as the story numbers it.
    fn txn_told(&self, txn: u64) -> u64 {
        txn.saturating_sub(u64::from(txn > self.beside))
    }

    fn fault_told(&self, fault: Fault) -> Fault {
        match fault {
            Fault::RowHeld(txn) => Fault::RowHeld(self.txn_told(txn)),
            Fault::KeyHeld(index, txn) => Fault::KeyHeld(index, self.txn_told(txn)),
            other => other,
        }
    }

    fn rest_of(&mut self, spec: &KeySpec) -> Result<Vec<Pair>, Fault> {
        if !spec.is_of(self.core.live().heap().schema()) {
            return Err(Fault::BadColumn);
        }
        self.core.rest(spec)
    }

    /// The pairs of a ready index, if they are those of the table's rows.
    fn ready_pairs(&mut self, number: usize) -> Result<Vec<Pair>, Fault> {
        let spec = self.core.ready(number)?.spec().clone()?;
        let pairs = self.rest_of(&spec)?;
        match self.core.ready(number) {
            Ok(index) if index.tree().iter().eq(pairs.as_slice()) => Ok(pairs),
            _ => Err(Fault::BadCount),
        }
    }

    /// Whether each ready index has the pairs of the table's rows.
    pub fn follow(&mut self) -> bool {
        for number in 0..self.ready {
            if self.ready_pairs(number).is_err() {
                return false;
            }
        }
        true
    }

    /// Takes all apart: whether all spools come back.
    pub fn end(self) -> bool {
        let Stand {
            alloc: _,
            core,
            stock,
            faults: _,
            are_back,
            is_running: _,
            is_fenced: _,
            ready: _,
            beside: _,
            is_broken: _,
            is_over: _,
        } = self;
        let (_, _, spools) = core.into_live();
        come_back(spools, &stock) && are_back
    }
}
