ghost use Rattle.std.specs.Prelude.{◌≡◌};
ghost use Rattle.sfbuild_c.specs.Causes.{cause_of, no_cause};

use crate::place::Place;
use keybytes::Fault;

/// What a refusal says beside its number, as C sees it: zero where it says nothing.
#[repr(C)]
#[derive(Clone, Copy)]
pub struct Cause {
    pub index: usize,
    pub number: u64,
    pub rid: Place,
}

impl Cause {
    pub(crate) fn none() -> Cause
        ensures { result ≡ no_cause }
    {
        Cause {
            index: 0,
            number: 0,
            rid: Place { page: 0, slot: 0 },
        }
    }

    pub(crate) fn of(fault: Fault) -> Cause
        ensures { result ≡ cause_of fault }
    {
        match fault {
            Fault::RowHeld(txn) => Cause::of_number(txn),
            Fault::Duplicate(index, rid) => Cause {
                index,
                number: 0,
                rid: Place::of(rid),
            },
            Fault::KeyHeld(index, txn) => Cause {
                index,
                number: txn,
                rid: Place { page: 0, slot: 0 },
            },
            Fault::NotLoaded(index) => Cause {
                index,
                number: 0,
                rid: Place { page: 0, slot: 0 },
            },
            Fault::NotScanned(number)
            | Fault::Behind(number)
            | Fault::Busy(number)
            | Fault::NotSealed(number) => Cause::of_number(number as u64),
            _ => Cause::none(),
        }
    }

    fn of_number(number: u64) -> Cause
        ensures { result ≡ record no_cause { number = number } }
    {
        Cause {
            index: 0,
            number,
            rid: Place { page: 0, slot: 0 },
        }
    }
}
