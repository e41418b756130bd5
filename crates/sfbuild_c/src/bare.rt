ghost use Rattle.std.specs.Prelude.{◌≡◌};
ghost use Rattle.std.specs.Box.Ownership.{box_owns};

use std::alloc::Allocator;
use std::marker::Model;

/// A box that was taken apart.
pub(crate) struct Bare<T, A: Allocator> {
    pub(crate) at: *mut T,
    pub(crate) alloc: A,
    pub(crate) ghost value: { T },
}

impl<T, A: Allocator> Model for Bare<T, A> {
    ghost also_owns = { λ bare. box_owns (A.dealloc_token bare.alloc) T.row bare.at bare.value };
}

impl<T: Drop, A: Allocator> Bare<T, A> {
    pub(crate) fn of(whole: Box<T, A>) -> Bare<T, A>
        ensures { result.value ≡ whole.value }
    {
        let (at, alloc) = Box::into_raw_with_allocator(whole);
        Bare { at, alloc }
    }

    pub(crate) fn into_box(self) -> Box<T, A>
        ensures { result.value ≡ self.value }
    {
        let Bare { at, alloc } = self;
        unsafe { Box::from_raw(alloc, at) }
    }
}
