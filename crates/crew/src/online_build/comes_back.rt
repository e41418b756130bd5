use builder_core::Worker;
use keybytes::Fault;
use run_spool::Spool;
use std::snapshot::Snapshot;
use std::thread::Promise;

/// A worker that comes back from its thread, with the fault that ended its work.
#[derive(Drop)]
pub(crate) struct Returned<S: Spool> {
    pub(crate) worker: Worker<S>,
    pub(crate) fault: Option<Fault>,
}

/// The worker that comes back is the one that went, with its spools.
#[derive(Drop)]
pub(crate) struct ComesBack<S: Spool> {
    pub(crate) worker: Snapshot<Worker<S>>,
}

impl<S: Spool> Promise<Returned<S>> for ComesBack<S> {
    ghost use Rattle.std.specs.Prelude.{◌≡◌, IfSome};
    ghost use Rattle.crew.specs.Reports.{IsOther};
    ghost use Rattle.crew.specs.Places.{place_of};

    ghost kept_by = { λ promise returned. (place_of returned.worker ≡ place_of promise.worker.value) × IfSome returned.fault IsOther };
}
