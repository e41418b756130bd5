use crate::ended::Ended;
use crate::session_script::SessionScript;
use crew::Opened;
use std::snapshot::Snapshot;
use std::thread::Promise;

/// The session that has ended ran the script that it was given.
#[derive(Drop)]
pub struct EndsScript {
    pub script: Snapshot<SessionScript>,
}

impl<T: Opened> Promise<Ended<T>> for EndsScript {
    ghost use Rattle.race.specs.Sessions.{HasRun};

    ghost kept_by = { λ promise ended. HasRun T.opening promise.script.value ended };
}
