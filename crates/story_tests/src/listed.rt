//! A story on a table of its own, its first events as one list.
ghost use Rattle.std.specs.Prelude.{◌≡◌, All, map};

use crate::events::event;
use crate::expected::{from_number, is_printed};
use crate::list_spool::Lists;
use crate::made::{Made, Paged};
use crate::place::NO_FAULT;
use crate::spoiled::is_refused_for;
use crate::stand::Stand;
use crate::story::{Kind, Stock, Story, stock_of};
use crate::telling::{Way, told_otherwise};
use crate::writing::start_of;
use builder_core::{Ends, Event, Live, Parts, Reply, TableRings, run_events};
use keybytes::{Fault, Schema};
use replay::table_parts;
use run_spool::Spool;
use script::NumberedCommand;
use std::alloc::Global;
use std::marker::Brand;

/// A story's table and records.
#[derive(Drop)]
pub struct Prepared<'t> {
    pub story: &'t Story,
    pub table: &'t script::Table,
    pub commands: &'t [NumberedCommand],
    pub answers: &'t [u8],
}

/// The number of the first record that is told otherwise, or 0 where the story ends otherwise, or a spool doesn't come
/// back; and whether the story was broken off.
pub type Told = (Option<usize>, bool);

/// The events with which the records begin.
fn first_events(
    alloc: Global,
    schema: &Schema,
    commands: &[NumberedCommand],
) -> Result<Vec<Event>, Fault> {
    let mut events = Vec::new(alloc);
    for record in commands {
        match event(alloc, schema, &record.command, u64::MAX) {
            Ok(event) => events.push(event)?,
            Err(Fault::Memory) => return Err(Fault::Memory),
            Err(_) => return Ok(events),
        }
    }
    Ok(events)
}

/// The number of the first record whose reply is another; one that memory was wanted for may end the list.
fn other_reply<S: Made, T: TableRings>(
    stand: &mut Stand<S, T>,
    told: &Prepared<'_>,
    replies: Vec<Reply>,
    way: &Way,
) -> Option<usize> {
    let mut place: usize = 0;
    for reply in replies {
        let answer = stand.answer_to(reply);
        if way.is_short && is_refused_for(&answer, Fault::Memory) {
            return None;
        }
        let number = told.commands.get(place)?.number;
        if !is_printed(number, &answer, from_number(told.answers, number)) {
            return Some(number);
        }
        place = place.saturating_add(1);
    }
    None
}

/// The same, and then of the records behind them, unless memory may have run out.
fn other_behind<S: Made, T: TableRings>(
    stand: &mut Stand<S, T>,
    told: &Prepared<'_>,
    replies: Result<Vec<Reply>, Fault>,
    way: &Way,
) -> Option<usize> {
    let Ok(replies) = replies else {
        return if way.is_short { None } else { Some(0) };
    };
    let count = replies.len().min(told.commands.len());
    let other = other_reply(stand, told, replies, way);
    stand.ended();
    if other.is_some() || way.is_list && way.is_short {
        return other;
    }
    let len = told.commands.len();
    let end = way.stop.unwrap_or(len).min(len);
    let commands = &told.commands[count.min(end)..end];
    told_otherwise(stand, commands, told.answers, way)
}

/// Does a list of events on a table, beside these spools, which come back ended.
fn run_on<S: Spool, T: TableRings>(
    alloc: Global,
    parts: Parts,
    spools: Vec<S>,
    events: &[Event],
) -> (Live<T>, Ends<T>, Vec<S>, Result<Vec<Reply>, Fault>)
    requires pages { parts.pages ≡ T.pages }
    requires sides { parts.sides ≡ T.sides }
    ensures ended { All S.ended result.2.items }
    ensures stakes { map S.stake result.2.items ≡ map S.stake spools.items }
{
    let (live, ends) = parts.open::<T>();
    run_events(alloc, live, ends, spools, events)
}

/// Tells a story on a table under its name.
fn told_on<S: Made, T: TableRings>(
    alloc: Global,
    parts: Parts,
    spools: Vec<S>,
    events: &[Event],
    told: &Prepared<'_>,
    stock: Stock,
    way: &Way,
) -> Told
    requires pages { parts.pages ≡ T.pages }
    requires sides { parts.sides ≡ T.sides }
{
    let (live, ends, spools, replies) = if way.is_list {
        run_on::<S, T>(alloc, parts, spools, events)
    } else {
        let (live, ends) = parts.open::<T>();
        (live, ends, spools, Ok(Vec::new(alloc)))
    };
    let faults = match &way.place {
        Some(place) => place.faults(),
        None => NO_FAULT,
    };
    let mut stand = Stand::new(alloc, live, ends, spools, stock, faults);
    let other = other_behind(&mut stand, told, replies, way);
    let is_broken = stand.is_broken;
    if stand.end() {
        (other, is_broken)
    } else {
        (Some(0), is_broken)
    }
}

/// The spools that are there at first are the story's, or those that its build wants, where its events are one list.
fn told_over<S: Made>(alloc: Global, told: &Prepared<'_>, way: &Way) -> Result<Told, Fault> {
    let table = script::Table {
        slot_limit: told.table.slot_limit,
        kinds: told.table.kinds.to_vec(alloc)?,
    };
    let parts = table_parts(alloc, table)?;
    let events = if way.is_list {
        first_events(alloc, parts.heap().schema(), told.commands)?
    } else {
        Vec::new(alloc)
    };
    let mut stock = match start_of(told.commands) {
        Some(start) if way.is_list => stock_of(start),
        _ => Stock { ..told.story.given },
    };
    let spools = S::made(alloc, &mut stock, &NO_FAULT)?;
    Ok(told_on::<S, Brand>(alloc, parts, spools, &events, told, stock, way))
}

/// Tells a story over spools of its kind.
pub fn told(alloc: Global, told: &Prepared<'_>, way: &Way) -> Result<Told, Fault> {
    match told.story.kind {
        Kind::Paged => told_over::<Paged>(alloc, told, way),
        Kind::Lists => told_over::<Lists>(alloc, told, way),
        Kind::Boxed => told_over::<Box<dyn Spool + Send>>(alloc, told, way),
    }
}
