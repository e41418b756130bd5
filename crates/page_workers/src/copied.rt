ghost use Rattle.std.specs.Prelude.{◌≡◌};
ghost use Rattle.page_workers.specs.Copies.{is_for};

use heap_table::PageImage;
use keybytes::Schema;

/// A copy of a page, under the number of the build that it was made for.
#[derive(Drop)]
pub struct Copied {
    pub build: u64,
    pub image: PageImage,
}

impl Copied {
    /// Whether it was made for that build, of a table of these columns.
    pub(crate) fn is_for(&self, build: u64, schema: &Schema) -> bool
        ensures { result ≡ is_for build schema.now self.now }
    {
        self.build == build && self.image.schema().is_same(schema)
    }
}
