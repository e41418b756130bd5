ghost use Rattle.std.specs.Prelude.{◌≡◌, IfErr, length};

use keybytes::Fault;
use std::alloc::Global;

/// The number of bytes of a page.
pub const PAGE_SIZE: usize = 4096;

/// A page of a pool. What its bytes are when it is leased means nothing. Only a pool makes pages.
#[derive(Drop)]
#[non_exhaustive]
pub struct Page {
    pub bytes: Box<[u8; PAGE_SIZE]>,
    pub ghost long: { length bytes.value ≡ 4096 },
}

impl Page {
    pub(crate) fn new(alloc: Global) -> Result<Page, Fault>
        ensures memory { IfErr result (λ fault. fault ≡ Fault.Memory) }
    {
        let bytes = Box::new(alloc, [0; PAGE_SIZE])?;
        Ok(Page { bytes })
    }
}
