use std::cmp::Ordering;
use std::fmt;

/// A row's place in the table: its page, and its slot on that page. Places are ordered by page, then by slot.
#[derive(Clone, Copy, Debug, PartialEq, Eq)]
pub struct Rid {
    pub page: u32,
    pub slot: u16,
}

impl PartialOrd for Rid {
    ghost use Rattle.std.specs.Prelude.{refl};
    ghost use Rattle.std.specs.Cmp.{partial_order_from_agreeing_total};
    ghost use Rattle.std.specs.Ordering.{as_partial_cmp};
    ghost use Rattle.keybytes.specs.Rids.{rid_cmp, rid_cmp-total, rid_cmp-ties};

    ghost partial_cmp = { as_partial_cmp rid_cmp };

    ghost laws = { partial_order_from_agreeing_total rid_cmp rid_cmp-total (λ rid other. refl) rid_cmp-ties };

    fn partial_cmp(&self, other: &Self) -> Option<Ordering> {
        Some(self.cmp(other))
    }
}

impl Ord for Rid {
    ghost use Rattle.std.specs.Prelude.{refl};
    ghost use Rattle.keybytes.specs.Rids.{rid_cmp, rid_cmp-total, rid_cmp-ties};

    ghost cmp = { rid_cmp };

    ghost total = { rid_cmp-total };

    ghost matches_partial_cmp = { λ rid other. refl };

    ghost matches_eq = { rid_cmp-ties };

    fn cmp(&self, other: &Self) -> Ordering {
        self.page.cmp(&other.page).then(self.slot.cmp(&other.slot))
    }
}

impl fmt::Display for Rid {
    /// The page and the slot, joined by a point.
    fn fmt<W: fmt::Write>(&self, f: &mut fmt::Formatter<W>) -> fmt::Result {
        let page = self.page;
        let slot = self.slot;
        write!(f, "{page}.{slot}")
    }
}
