use crate::{Opened, Receipt};
use heap_log::Verdicts;
use keybytes::{Fault, Pair};

/// What a build that decided tells.
#[derive(Drop)]
pub struct Report<T: Opened> {
    /// For the log's record of the switch.
    pub receipt: Receipt<T>,
    /// What became of each index, in the plan's order.
    pub verdicts: Verdicts,
    /// The pairs of each index that is ready now, as the switch left them; none where the plan didn't ask for them, or where no memory was left
    /// for a copy.
    pub pairs: Option<Vec<Vec<Pair>>>,
    /// How it caught up with those who write.
    pub caught_up: CaughtUp,
}

/// How a build caught up with those who write, the last time that it tried its switch.
#[derive(Clone, Copy, PartialEq, Eq)]
pub struct CaughtUp {
    /// How many changes of keys waited when it began, over all its indexes.
    pub waited: usize,
    /// How many turns fed and applied such changes, before the one that switched.
    pub turns: usize,
}

/// Why a build was given up.
#[derive(Clone, Copy, PartialEq, Eq)]
pub struct BuildFault(pub Fault);
