ghost use Rattle.std.specs.Prelude.{◌≡◌};

use heap_log::Rid;
use keybytes::Row;

/// A change that a table will take: nothing refuses it, and its memory is there.
///
/// It is made by `ready_insert`, `ready_update`, `ready_delete` or `ready_undo` of [`Heap`](crate::Heap), and
/// [`Heap::perform`](crate::Heap::perform) does it.
pub struct Ready {
    /// Where it changes the table.
    pub rid: Rid,
    /// The row that stands there.
    pub old: Option<Row>,
    /// The row that will stand there.
    pub new: Option<Row>,
    pub(crate) txn: u64,
    /// The number of the write that it undoes; none where it is a write itself.
    pub(crate) undone: Option<usize>,
    /// The bytes of the new row.
    pub(crate) bytes: Vec<u8>,
}

impl Drop for Ready {
    fn drop(self) {
        let Ready {
            rid: _,
            old: _,
            new: _,
            txn: _,
            undone: _,
            bytes: _,
        } = self;
    }
}

impl Ready {
    /// Whose change it is.
    pub fn txn(&self) -> u64
        ensures { result ≡ self.now.txn }
    {
        self.txn
    }

    /// The number of the write that it undoes; none where it is a write itself.
    pub fn undone(&self) -> Option<usize>
        ensures { result ≡ self.now.undone }
    {
        self.undone
    }
}
