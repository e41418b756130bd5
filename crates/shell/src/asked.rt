ghost use Rattle.std.specs.Prelude.{◌≡◌};
ghost use Rattle.shell.specs.Counting.{asked_by, index_asked, may_spoil, scanned_after, worker_asked};

use script::Command;

/// What of a command counts for how far a build is, and how many transactions are open.
#[derive(Clone, Copy)]
pub enum Asked {
    Begin,
    Undo,
    Commit,
    Start { workers: usize, indexes: usize },
    Scan { worker: usize },
    Digest { worker: usize },
    Seal { worker: usize },
    Load { index: usize },
    Feed { index: usize },
    Apply { index: usize },
    Other,
}

impl Asked {
    pub fn of(command: &Command) -> Asked
        ensures { result ≡ asked_by command.now }
    {
        match command {
            Command::Begin { .. } => Asked::Begin,
            Command::Undo { .. } => Asked::Undo,
            Command::Commit { .. } => Asked::Commit,
            Command::Start(start) => Asked::Start {
                workers: start.workers,
                indexes: start.specs.len(),
            },
            Command::Scan { worker, .. } => Asked::Scan { worker: *worker },
            Command::Digest { worker } => Asked::Digest { worker: *worker },
            Command::Seal { worker } => Asked::Seal { worker: *worker },
            Command::Load { index } => Asked::Load { index: *index },
            Command::Feed { index, .. } => Asked::Feed { index: *index },
            Command::Apply { index, .. } => Asked::Apply { index: *index },
            _ => Asked::Other,
        }
    }

    /// The worker who was asked, if one was.
    pub fn worker(self) -> Option<usize>
        ensures { result ≡ worker_asked self }
    {
        match self {
            Asked::Scan { worker } | Asked::Digest { worker } | Asked::Seal { worker } => {
                Some(worker)
            }
            _ => None,
        }
    }

    /// The index that it was about, if it was about one.
    pub fn index(self) -> Option<usize>
        ensures { result ≡ index_asked self }
    {
        match self {
            Asked::Load { index } | Asked::Feed { index } | Asked::Apply { index } => Some(index),
            _ => None,
        }
    }

    /// How many pages were copied once it was done, where so many were before.
    pub fn scanned(self, before: u64) -> u64
        ensures { result ≡ scanned_after before self }
    {
        match self {
            Asked::Scan { .. } => before.saturating_add(1),
            _ => before,
        }
    }

    /// Whether the build is spoiled where it was refused for want of room.
    pub fn may_spoil(self) -> bool
        ensures { result ≡ may_spoil self }
    {
        match self {
            Asked::Digest { .. } | Asked::Seal { .. } | Asked::Load { .. } => true,
            _ => false,
        }
    }
}
