//! The telling of a story's records, one after another.

use crate::expected::from_number;
use crate::made::Made;
use crate::place::Place;
use crate::refused::goes_where_short;
use crate::spoiled::{gives_up, is_refused_for, is_stopped};
use crate::stand::Stand;
use crate::turns::Turn;
use builder_core::TableRings;
use replay::Answer;
use script::{Command, NumberedCommand};

/// How a story is told; else each ready index is compared with the table's rows behind each record.
#[derive(Drop)]
pub struct Way {
    /// Whether its first events are told as one list.
    pub is_list: bool,
    /// Whether memory may run out once.
    pub is_short: bool,
    /// Where one of its spools fails.
    pub place: Option<Place>,
    /// Behind how many records it is abandoned: what came before the last is compared where the story is stopped earlier.
    pub stop: Option<usize>,
}

/// Whether a record may be answered so. The fault comes once; from then on the build is spoiled. What comes before it
/// and can't meet it is compared where it isn't reached.
fn is_answer(place: &Place, has_come: &mut bool, turn: &Turn<'_>, answer: &Answer) -> bool {
    let is_work = matches!(
        turn.command,
        Command::Scan { .. }
            | Command::Digest { .. }
            | Command::Seal { .. }
            | Command::Load { .. }
            | Command::Apply { .. }
            | Command::Switch
    );
    if *has_come && is_work {
        return is_refused_for(answer, place.fault());
    }
    let is_met = !*has_come && place.is_met_by(turn.command);
    if is_met && is_refused_for(answer, place.fault()) {
        *has_come = true;
        return true;
    }
    place.is_reached && !*has_come && !is_met || turn.is_told(answer)
}

/// Tells one record.
fn goes<S: Made, T: TableRings>(stand: &mut Stand<S, T>, turn: &Turn<'_>, way: &Way) -> bool {
    if way.is_short {
        return goes_where_short(stand, turn);
    }
    let answer = stand.answer(turn.command);
    match (&way.place, way.stop) {
        (Some(place), _) => is_answer(place, &mut stand.is_broken, turn, &answer),
        (None, Some(count)) => turn.number <= count || turn.is_told(&answer),
        (None, None) => turn.is_told(&answer) && stand.follow(),
    }
}

/// The number of the first record that is told otherwise, or behind which the core isn't as it is told.
fn first_otherwise<S: Made, T: TableRings>(
    stand: &mut Stand<S, T>,
    commands: &[NumberedCommand],
    answers: &[u8],
    way: &Way,
) -> Option<usize> {
    let mut told = answers;
    for record in commands {
        told = from_number(told, record.number);
        let turn = Turn {
            number: record.number,
            command: &record.command,
            told,
        };
        if !goes(stand, &turn, way) || !stand.is_as_told() {
            return Some(turn.number);
        }
        if stand.is_over {
            return None;
        }
    }
    None
}

/// Whether all ends as it should behind the last record.
fn is_over<S: Made, T: TableRings>(stand: &mut Stand<S, T>, way: &Way) -> bool {
    match (&way.place, way.stop) {
        (Some(place), _) if place.is_reached => stand.is_broken && gives_up(stand, place.fault()),
        (Some(_), _) => !stand.is_broken,
        (None, Some(_)) => {
            stand.is_broken = stand.is_running;
            is_stopped(stand)
        }
        (None, None) => true,
    }
}

/// The number of the first record that is told otherwise; 0 where the story ends otherwise.
pub fn told_otherwise<S: Made, T: TableRings>(
    stand: &mut Stand<S, T>,
    commands: &[NumberedCommand],
    answers: &[u8],
    way: &Way,
) -> Option<usize> {
    let other = first_otherwise(stand, commands, answers, way);
    if other.is_none() && !is_over(stand, way) {
        return Some(0);
    }
    other
}
