ghost use Rattle.std.specs.Prelude.{◌≡◌};

use crate::counted::Counted;
use crate::page_count::PageCount;
use builder_core::TableRings;
use leased_core::UnnamedLeased;
use std::marker::Model;

/// A [`Counted`] whose name was taken off. It tells which rings a name has to be of for [`UnnamedCounted::open`].
pub(crate) struct UnnamedCounted {
    leased: UnnamedLeased,
    pages: PageCount,
}

impl Drop for UnnamedCounted {
    fn drop(self) {
        let UnnamedCounted {
            leased: _,
            pages: _,
        } = self;
    }
}

impl Model for UnnamedCounted {
    ghost use Rattle.live_lemmas.specs.Builds.{UnnamedValue};
    ghost use Rattle.kept_table.specs.Counts.{Counts, HasLaws};

    ghost Value = { UnnamedValue };

    ghost view = { λ unnamed. unnamed.leased };

    ghost invariant = { λ unnamed. Counts unnamed.pages unnamed.leased.core × HasLaws unnamed.leased.core };
}

impl UnnamedCounted {
    /// Gives it a name: it is what it was, under any name with its rings. Takes no memory.
    pub(crate) fn open<T: TableRings>(self) -> Counted<T>
        requires pages { self.pages ≡ T.pages }
        requires sides { self.sides ≡ T.sides }
        ensures { result ≡ self.core }
    {
        let UnnamedCounted { leased, pages } = self;
        Counted {
            leased: leased.open(),
            pages,
        }
    }
}

impl<T: TableRings> Counted<T> {
    /// Takes its name off, whatever build runs. Takes no memory.
    pub(crate) fn unname(self) -> UnnamedCounted
        ensures core { result.core ≡ self }
        ensures pages { result.pages ≡ T.pages }
        ensures sides { result.sides ≡ T.sides }
    {
        let Counted { leased, pages } = self;
        UnnamedCounted {
            leased: leased.unname(),
            pages,
        }
    }
}
