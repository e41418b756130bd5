ghost use Rattle.std.specs.Prelude.{◌≡◌};
ghost use Rattle.sfbuild_c.specs.Places.{place_of, rid_of};

use keybytes::Rid;

/// Where a row stands, as C sees it.
#[repr(C)]
#[derive(Clone, Copy)]
pub struct Place {
    pub page: u32,
    pub slot: u16,
}

impl Place {
    pub(crate) fn of(rid: Rid) -> Place
        ensures { result ≡ place_of rid }
    {
        Place {
            page: rid.page,
            slot: rid.slot,
        }
    }

    pub(crate) fn rid(self) -> Rid
        ensures { result ≡ rid_of self }
    {
        Rid {
            page: self.page,
            slot: self.slot,
        }
    }
}
