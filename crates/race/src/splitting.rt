//! What each session does by itself.
ghost use Rattle.std.specs.Prelude.{◌≡◌, ◌≢◌, ℕ, IfOk};
ghost use Rattle.race.specs.Sessions.{AreSessionsOf, commands_of};

use crate::session_script::SessionScript;
use keybytes::Fault;
use script::{SessionCommand, SessionStep};
use std::alloc::Global;

/// How many sessions a race may have.
const SESSIONS_MAX: usize = 8;

/// The sessions that do something, in the order of their numbers, each with its commands in order.
pub fn sessions_of(alloc: Global, steps: Vec<SessionStep>) -> Result<Vec<SessionScript>, Fault>
    ensures { IfOk result (λ sessions. AreSessionsOf steps.items sessions.items) }
{
    let mut sessions = Vec::with_capacity(alloc, SESSIONS_MAX)?;
    let mut left = steps;
    for number in 0..SESSIONS_MAX {
        let (commands, others) = parted(alloc, left, number + 1)?;
        left = others;
        if !commands.is_empty() {
            sessions.push(SessionScript {
                session: number + 1,
                commands,
            })?;
        }
    }
    Ok(sessions)
}

/// The commands of a session, and the steps of the others.
fn parted(
    alloc: Global,
    steps: Vec<SessionStep>,
    session: usize,
) -> Result<(Vec<SessionCommand>, Vec<SessionStep>), Fault>
    ensures own { IfOk result (λ parts. parts.0.items ≡ commands_of session steps.items) }
    ensures others { IfOk result (λ parts. (other : ℕ) → other ≢ session → commands_of other parts.1.items ≡ commands_of other steps.items) }
{
    let mut commands = Vec::new(alloc);
    let mut others = Vec::new(alloc);
    for step in steps {
        if step.session == session {
            commands.push(step.command)?;
        } else {
            others.push(step)?;
        }
    }
    Ok((commands, others))
}
