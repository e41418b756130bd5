ghost use Rattle.std.specs.Prelude.{◌≡◌};
ghost use Rattle.sfbuild_c.specs.Telling.{as_verdict};

use crate::place::Place;
use heap_log::Outcome;

/// What a switch decided of an index, as C sees it.
#[repr(C)]
#[derive(Clone, Copy)]
pub struct VerdictOf {
    pub ready: bool,
    pub number: usize,
    pub first: Place,
    pub second: Place,
}

impl VerdictOf {
    pub(crate) fn of(verdict: &Outcome) -> VerdictOf
        ensures { result ≡ as_verdict verdict.now }
    {
        let none = Place { page: 0, slot: 0 };
        match verdict {
            Outcome::Ready(number) => VerdictOf {
                ready: true,
                number: *number,
                first: none,
                second: none,
            },
            Outcome::Shared { first, second, .. } => VerdictOf {
                ready: false,
                number: 0,
                first: Place::of(*first),
                second: Place::of(*second),
            },
        }
    }
}
