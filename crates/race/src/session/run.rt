ghost use Rattle.std.specs.Prelude.{◌≡◌, ◌≤◌, ◌+◌, length};
ghost use Rattle.race.specs.Commands.{HasEnded, TakesAll, state_of};

use crate::session::SessionEnd;
use crate::session::running::Running;
use crew::{Opened, Session};
use script::SessionCommand;
use std::alloc::Global;
use std::sync::Wait;

/// Runs the commands of a session in order. What is refused is counted, and the session goes on. In the end it undoes its open
/// transactions step by step; a step that is refused for want of memory is tried a thousand times again before that transaction stays open.
pub fn run_session<T: Opened, R: Wait>(
    rt: &R,
    alloc: Global,
    mut session: Session<'_, T>,
    commands: Vec<SessionCommand>,
) -> SessionEnd<T>
    ensures each { result.accepted + result.refused ≡ length commands.items }
    ensures ended { HasEnded commands.items session.entry result.accepted (record { log = result.known; receipts = result.receipts.items }) }
{
    let total = commands.len();
    let mut running = Running::new(alloc);
    let accepted = obey_all(rt, &mut running, &mut session, commands);
    running.roll_back_all(rt, &mut session);
    SessionEnd {
        accepted,
        refused: total - accepted,
        receipts: running.receipts,
        known: session.into_known(),
    }
}

/// Runs the commands, and answers how many were accepted.
fn obey_all<T: Opened, R: Wait>(
    rt: &R,
    running: &mut Running<T>,
    session: &mut Session<'_, T>,
    commands: Vec<SessionCommand>,
) -> usize
    ensures some { result ≤ length commands.items }
    ensures takes { TakesAll commands.items
        0 (state_of running.old.labels running.old.open_txns.items session.old running.old.receipts.items)
        result (state_of running.new.labels running.new.open_txns.items session.new running.new.receipts.items) }
{
    let mut accepted = 0;
    for command in commands {
        if running.obey(rt, session, command).is_ok() {
            accepted += 1;
        }
    }
    accepted
}
