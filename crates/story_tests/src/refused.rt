//! What has to hold once an event was refused for want of memory, of which there is enough from then on.

use crate::expected::first_value;
use crate::made::Made;
use crate::seen::{Seen, look};
use crate::spoiled::{gives_up, is_refused_for};
use crate::stand::Stand;
use crate::turns::Turn;
use builder_core::{Event, TableRings};
use keybytes::Fault;
use replay::Answer;
use script::Command;

/// Whether a transaction may begin just where the story lets it. One that begins ends at once, and leaves no record.
fn is_fenced_so<S: Made, T: TableRings>(stand: &mut Stand<S, T>) -> bool {
    match stand.step(Event::Begin) {
        Answer::Number { number: txn } => {
            stand.beside = txn;
            let told = stand.step(Event::Undo { txn });
            !stand.is_fenced && matches!(told, Answer::Undone { number: 0, left: 0 })
        }
        told => stand.is_fenced && is_refused_for(&told, Fault::Fenced),
    }
}

/// Whether the event that is asked for again goes on with the rest, if it is an apply that was refused; else is
/// answered as the story tells it.
fn is_rest(again: &Answer, turn: &Turn<'_>) -> bool {
    match again {
        Answer::Number { number } if matches!(turn.command, Command::Apply { .. }) => {
            0 < *number && *number <= first_value(turn.told)
        }
        other => turn.is_told(other),
    }
}

/// Whether all is as it was before, where the build may be spoiled or some entries may be applied, and a story goes on
/// so once memory was wanted.
fn goes_on<S: Made, T: TableRings>(
    stand: &mut Stand<S, T>,
    turn: &Turn<'_>,
    before: &Seen,
) -> bool {
    let now = look(stand);
    let is_so = match turn.command {
        Command::Apply { .. } | Command::Switch => now.is_behind(before),
        _ => now.is(before),
    };
    if !is_so || !is_fenced_so(stand) {
        return false;
    }
    match turn.command {
        Command::Digest { .. } | Command::Seal { .. } | Command::Load { .. } => {
            stand.is_over = true;
            gives_up(stand, Fault::Memory)
        }
        _ => is_rest(&stand.answer(turn.command), turn),
    }
}

/// Tells a record of a story in which memory may be wanted once.
pub fn goes_where_short<S: Made, T: TableRings>(stand: &mut Stand<S, T>, turn: &Turn<'_>) -> bool {
    let before = look(stand);
    let answer = stand.answer(turn.command);
    if stand.is_broken || !is_refused_for(&answer, Fault::Memory) {
        return turn.is_told(&answer);
    }
    stand.is_broken = true;
    goes_on(stand, turn, &before)
}
