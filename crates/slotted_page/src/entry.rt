ghost use Rattle.std.specs.Prelude.{◌≡◌};
ghost use Rattle.slotted_page.specs.Entry.{entry_reserve, is_free_entry};

/// The most bytes that a row can have. It has at least one.
pub const MAX_ROW_SIZE: usize = 1224;

/// What the directory says of a slot. A row's bytes begin at `offset` of the page.
#[derive(Clone, Copy)]
pub(crate) enum Entry {
    Free,
    Held {
        reserve: u16,
    },
    Row {
        offset: u16,
        length: u16,
        reserve: u16,
    },
}

impl Entry {
    /// The bytes that the slot has been promised.
    pub(crate) fn reserve(self) -> u16
        ensures { result ≡ entry_reserve self }
    {
        match self {
            Entry::Free => 0,
            Entry::Held { reserve } => reserve,
            Entry::Row { reserve, .. } => reserve,
        }
    }

    /// Whether the slot is free.
    pub(crate) fn is_free(self) -> bool
        ensures { result ≡ is_free_entry self }
    {
        matches!(self, Entry::Free)
    }
}
