//! What the log keeps of each RID that was written, so that no question walks the log.
ghost use Rattle.std.specs.Prelude.{◌≡◌};
ghost use Rattle.heap_log.specs.PageHeads.{no_head};

/// What is kept of a RID.
#[derive(Clone, Copy)]
pub(crate) struct RidHead {
    /// The last write there, standing or not.
    pub last: Option<usize>,
    /// The newest standing write there.
    pub newest: Option<usize>,
}

impl RidHead {
    /// The head of a RID that no write was at.
    pub fn none() -> RidHead
        ensures { result ≡ no_head }
    {
        RidHead {
            last: None,
            newest: None,
        }
    }
}
