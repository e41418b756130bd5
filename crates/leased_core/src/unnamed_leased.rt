ghost use Rattle.std.specs.Prelude.{◌≡◌};

use crate::LeasedCore;
use crate::leases::Leases;
use builder_core::{TableRings, UnnamedCore};
use prefix_spool::SpoolOfKind;
use std::alloc::Global;
use std::marker::Model;

/// A [`LeasedCore`] whose name was taken off: what a program keeps that can't keep a type, as one in C. It tells which rings a name has to be of for
/// [`UnnamedLeased::open`].
///
/// To let it go lets the table go, and with it the pool and the spools of a build that runs, which nobody ends. Whoever wants the pages
/// counted opens it, and calls [`LeasedCore::close`].
pub struct UnnamedLeased {
    alloc: Global,
    core: UnnamedCore<SpoolOfKind>,
    leases: Option<Leases>,
}

impl Drop for UnnamedLeased {
    fn drop(self) {
        let UnnamedLeased {
            alloc: _,
            core: _,
            leases: _,
        } = self;
    }
}

impl Model for UnnamedLeased {
    ghost use Rattle.live_lemmas.specs.Builds.{UnnamedValue};
    ghost use Rattle.leased_core.specs.Leasing.{LeasesFollow};

    ghost Value = { UnnamedValue };

    ghost view = { λ unnamed. unnamed.core };

    ghost invariant = { λ unnamed. LeasesFollow unnamed.leases unnamed.core.core };
}

impl UnnamedLeased {
    /// Gives it a name: it is what it was, under any name with its rings. Takes no memory.
    pub fn open<T: TableRings>(self) -> LeasedCore<T>
        requires pages { self.pages ≡ T.pages }
        requires sides { self.sides ≡ T.sides }
        ensures { result ≡ self.core }
    {
        let UnnamedLeased {
            alloc,
            core,
            leases,
        } = self;
        LeasedCore {
            alloc,
            core: core.open(),
            leases,
        }
    }
}

impl<T: TableRings> LeasedCore<T> {
    /// Takes its name off, whatever build runs. Takes no memory.
    pub fn unname(self) -> UnnamedLeased
        ensures core { result.core ≡ self }
        ensures pages { result.pages ≡ T.pages }
        ensures sides { result.sides ≡ T.sides }
    {
        let LeasedCore {
            alloc,
            core,
            leases,
        } = self;
        UnnamedLeased {
            alloc,
            core: core.unname(),
            leases,
        }
    }
}
