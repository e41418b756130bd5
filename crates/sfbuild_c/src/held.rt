ghost use Rattle.std.specs.Prelude.{◌≡◌, Option, Some, None, is_some, true};
ghost use Rattle.kept_table.specs.KeptTables.{KeptValue};

use crate::bare::Bare;
use kept_table::Kept;
use std::alloc::Global;
use std::marker::Model;

/// The box of a table as its pointer, or nothing. What it points to is hidden: C may keep the pointer, but not the type of what a table is made of.
///
/// To let it go frees nothing: [`Held::into_bare`] gives the box back.
#[repr(C)]
#[derive(Drop)]
pub struct Held {
    at: *mut u8,
    alloc: Global,
    pub ghost table: { Option KeptValue },
}

impl Model for Held {
    ghost use Rattle.sfbuild_c.specs.Owned.{table_owns};

    ghost also_owns = { λ held. table_owns held.alloc held.at held.table };
}

impl Held {
    pub(crate) fn none(alloc: Global) -> Held
        ensures { result.table ≡ None }
    {
        Held {
            at: std::ptr::null_mut(),
            alloc,
        }
    }

    pub(crate) fn of(table: Bare<Kept, Global>) -> Held
        ensures { result.table ≡ Some table.value }
    {
        let Bare { at, alloc } = table;
        Held {
            at: at as *mut u8,
            alloc,
        }
    }

    pub(crate) fn into_bare(self) -> Bare<Kept, Global>
        requires { is_some self.table ≡ true }
        ensures { self.table ≡ Some result.value }
    {
        let Held { at, alloc } = self;
        Bare {
            at: at as *mut Kept,
            alloc,
        }
    }
}

// Its table may go to another thread, and any thread may give the memory back.
unsafe impl Send for Held {}
