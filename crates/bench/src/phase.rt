ghost use Rattle.std.specs.Prelude.{◌≡◌};
ghost use Rattle.bench.specs.Phases.{is_of_build};

use std::alloc::AllocError;

/// What is measured of a run by turns.
pub enum Phase {
    Fill,
    UpdatesAlone,
    Start,
    Scan,
    Digest,
    Updates,
    Seal,
    Load,
    CatchUp,
    Switch,
    /// The phases from the start to the switch, but for the updates.
    Build,
    LookUps,
    Inserts,
    UpdatesReady,
}

/// All of them in the order in which they are told, with their names.
pub static PHASES: [(Phase, &str); 14] = [
    (Phase::Fill, "fill"),
    (Phase::UpdatesAlone, "updates alone"),
    (Phase::Start, "start"),
    (Phase::Scan, "scan"),
    (Phase::Digest, "digest"),
    (Phase::Updates, "updates"),
    (Phase::Seal, "seal"),
    (Phase::Load, "load"),
    (Phase::CatchUp, "catch-up"),
    (Phase::Switch, "switch"),
    (Phase::Build, "build"),
    (Phase::LookUps, "look-ups"),
    (Phase::Inserts, "inserts"),
    (Phase::UpdatesReady, "updates ready"),
];

impl Copy for Phase {}

impl Clone for Phase {
    fn clone(&self) -> Result<Phase, AllocError> {
        Ok(*self)
    }
}

impl Phase {
    /// Whether the time of the build has it in it.
    pub fn is_of_build(self) -> bool
        ensures { result ≡ is_of_build self }
    {
        matches!(
            self,
            Phase::Start
                | Phase::Scan
                | Phase::Digest
                | Phase::Seal
                | Phase::Load
                | Phase::CatchUp
                | Phase::Switch
        )
    }
}
