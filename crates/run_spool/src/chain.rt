//! Chains of frames. A frame has a page or none; it is made once, and is moved from chain to chain, so that no memory is taken
//! for it again.

ghost use Rattle.std.specs.Prelude.{◌≡◌, ◌+◌, ◌-◌, ◌^◌, ◌<◌, ◌≤◌, ◌++◌, ◌∷◌, ◌↔◌, ◌==◌, []};
ghost use Rattle.std.specs.Prelude.{length, drop, take, if◌then◌else◌, Some, IfOk, IfErr, IsTrue, IsSome};
ghost use Rattle.run_spool.specs.Pages.{IsPairAt, no_page, last_key, size_on, page_with, with_pair, without_first};
ghost use Rattle.run_spool.specs.Frames.{page_in};
ghost use Rattle.run_spool.specs.Runs.{first_of, last_of, with_first, on_last};

use crate::PageOfPairs;
use keybytes::{Fault, Key, Pair, Rid};
use spool_ledger::Page;
use std::alloc::Global;
use std::collections::LinkedList;
use std::marker::Model;
use std::mem;

/// A chain of frames. Contracts see the pages in them.
#[derive(Drop)]
pub(crate) struct Chain<P: PageOfPairs> {
    frames: LinkedList<Option<P>>,
}

impl<P: PageOfPairs> Model for Chain<P> {
    ghost use Rattle.std.specs.Prelude.{List};
    ghost use Rattle.run_spool.specs.Pages.{PageValue};
    ghost use Rattle.run_spool.specs.Frames.{pages_in};

    ghost Value = { List PageValue };

    ghost view = { λ chain. pages_in P.value chain.frames };
}

impl<P: PageOfPairs> Chain<P> {
    /// A chain with no frame. It takes no memory.
    pub(crate) fn new(alloc: Global) -> Chain<P>
        ensures { result ≡ [] }
    {
        Chain {
            frames: LinkedList::new(alloc),
        }
    }

    /// A chain of that many frames, with no page in them.
    pub(crate) fn of_frames(alloc: Global, count: usize) -> Result<Chain<P>, Fault>
        ensures count { IfOk result (λ chain. length chain ≡ count) }
        ensures memory { IfErr result (λ fault. fault ≡ Fault.Memory) }
    {
        let mut frames = LinkedList::new(alloc);
        for _ in 0..count {
            frames.push_back(None)?;
        }
        Ok(Chain { frames })
    }

    pub(crate) fn allocator(&self) -> Global {
        *self.frames.allocator()
    }

    /// Whether it has no frame.
    pub(crate) fn is_empty(&self) -> bool
        ensures { result ≡ (length self.now == 0) }
    {
        self.frames.is_empty()
    }

    /// Moves the first frame behind the last one of another chain.
    pub(crate) fn move_first(&mut self, to: &mut Chain<P>)
        requires there { 0 < length self.old }
        requires small { length self.old + length to.old < 2 ^ 63 }
        ensures from { self.new ≡ drop 1 self.old }
        ensures to { to.new ≡ to.old ++ take 1 self.old }
    {
        let Ok(rest) = self.frames.split_off(1) else {
            unreachable!()
        };
        let mut first = mem::replace(&mut self.frames, rest);
        let Ok(()) = to.frames.append(&mut first) else {
            unreachable!()
        };
    }

    /// Moves the last frame before the first one of another chain.
    pub(crate) fn move_last(&mut self, to: &mut Chain<P>)
        requires there { 0 < length self.old }
        requires small { length self.old + length to.old < 2 ^ 63 }
        ensures from { self.new ≡ take (length self.old - 1) self.old }
        ensures to { to.new ≡ drop (length self.old - 1) self.old ++ to.old }
    {
        let last = self.frames.len() - 1;
        let Ok(mut chain) = self.frames.split_off(last) else {
            unreachable!()
        };
        let Ok(()) = chain.append(&mut to.frames) else {
            unreachable!()
        };
        mem::swap(&mut to.frames, &mut chain);
    }

    /// Moves all frames before those of another chain.
    pub(crate) fn move_all(&mut self, to: &mut Chain<P>)
        requires { length self.old + length to.old < 2 ^ 63 }
        ensures from { self.new ≡ [] }
        ensures to { to.new ≡ self.old ++ to.old }
    {
        let Ok(()) = self.frames.append(&mut to.frames) else {
            unreachable!()
        };
        mem::swap(&mut self.frames, &mut to.frames);
    }

    /// Puts a page with just one pair into the first spare frame, which goes behind the others.
    pub(crate) fn add_page(&mut self, spare: &mut Chain<P>, page: Page, pair: &Pair)
        requires there { 0 < length spare.old }
        requires small { length spare.old + length self.old < 2 ^ 62 }
        ensures spare { spare.new ≡ drop 1 spare.old }
        ensures chain { self.new ≡ self.old ++ page_with P.pair_size pair.now ∷ [] }
        ensures fits { P.pair_size [] pair.now ≤ 4096 }
    {
        let alloc = *self.frames.allocator();
        let Ok(rest) = spare.frames.split_off(1) else {
            unreachable!()
        };
        let mut frame = mem::replace(&mut spare.frames, rest);
        put_page(&mut frame, P::new(alloc, page, pair));
        let Ok(()) = self.frames.append(&mut frame) else {
            unreachable!()
        };
    }

    /// Takes the page out of the first frame.
    pub(crate) fn take_page(&mut self) -> Option<P>
        requires { 0 < length (first_of self.old).pairs }
        ensures chain { self.new ≡ no_page ∷ drop 1 self.old }
        ensures page { IsSome result }
    {
        match self.frames.front_mut() {
            Some(frame) => frame.take(),
            None => None,
        }
    }

    /// Writes a pair on the last page, whose last pair has the key `last`, and tells whether it had room.
    pub(crate) fn push(&mut self, last: &Key, pair: &Pair) -> bool
        requires { 0 < length self.old → last.now ≡ last_key (last_of self.old).pairs }
        ensures fits { IsTrue result ↔ (size_on P.pair_size (last_of self.old) pair.now ≤ (last_of self.old).room) }
        ensures chain { self.new ≡ (if result then on_last P.pair_size self.old pair.now else self.old) }
    {
        match self.frames.back_mut() {
            Some(frame) => push_at(frame, last, pair),
            None => false,
        }
    }

    /// Reads a pair of the first page.
    pub(crate) fn read(&mut self, n: usize, key: &mut Key) -> Result<Rid, Fault>
        requires { n < length (first_of self.old).pairs }
        ensures pair { IfOk result (λ rid. IsPairAt (first_of self.old).pairs n key.new rid) }
        ensures memory { IfErr result (λ fault. fault ≡ Fault.Memory) }
        ensures same { self.new ≡ self.old }
    {
        match self.frames.front_mut() {
            Some(frame) => read_at(frame, n, key),
            None => unreachable!(),
        }
    }

    /// Lets pairs of the first page go, but not all.
    pub(crate) fn free_front(&mut self, n: usize)
        requires { n < length (first_of self.old).pairs }
        ensures { self.new ≡ with_first self.old (without_first (first_of self.old) n) }
    {
        if let Some(frame) = self.frames.front_mut() {
            free_at(frame, n);
        }
    }

    /// How many pairs the first page has.
    pub(crate) fn first_len(&self) -> usize
        ensures { result ≡ length (first_of self.now).pairs }
    {
        match self.frames.front() {
            Some(Some(page)) => page.len(),
            _ => 0,
        }
    }

    /// How many pairs the last page has.
    pub(crate) fn last_len(&self) -> usize
        ensures { result ≡ length (last_of self.now).pairs }
    {
        match self.frames.back() {
            Some(Some(page)) => page.len(),
            _ => 0,
        }
    }
}

/// Puts a page into the one frame of a list.
fn put_page<P: PageOfPairs>(frames: &mut LinkedList<Option<P>>, page: P)
    requires { length frames.old ≡ 1 }
    ensures { frames.new ≡ Some page ∷ [] }
{
    if let Some(frame) = frames.front_mut() {
        *frame = Some(page);
    }
}

/// Writes a pair on the page in a frame, and tells whether it had room.
fn push_at<P: PageOfPairs>(frame: &mut Option<P>, last: &Key, pair: &Pair) -> bool
    requires { last.now ≡ last_key (page_in P.value frame.old).pairs }
    ensures fits { IsTrue result ↔ (P.pair_size last.now pair.now ≤ (page_in P.value frame.old).room) }
    ensures frame { page_in P.value frame.new
        ≡ (if result then with_pair P.pair_size (page_in P.value frame.old) pair.now else page_in P.value frame.old) }
{
    match frame {
        Some(page) => page.push(last, pair),
        None => false,
    }
}

/// Reads a pair of the page in a frame.
fn read_at<P: PageOfPairs>(frame: &mut Option<P>, n: usize, key: &mut Key) -> Result<Rid, Fault>
    requires { n < length (page_in P.value frame.old).pairs }
    ensures pair { IfOk result (λ rid. IsPairAt (page_in P.value frame.old).pairs n key.new rid) }
    ensures memory { IfErr result (λ fault. fault ≡ Fault.Memory) }
    ensures same { page_in P.value frame.new ≡ page_in P.value frame.old }
{
    match frame {
        Some(page) => page.read(n, key),
        None => unreachable!(),
    }
}

/// Lets pairs of the page in a frame go, but not all.
fn free_at<P: PageOfPairs>(frame: &mut Option<P>, n: usize)
    requires { n < length (page_in P.value frame.old).pairs }
    ensures { page_in P.value frame.new ≡ without_first (page_in P.value frame.old) n }
{
    if let Some(page) = frame {
        page.free_front(n);
    }
}
