use keybytes::KeySpec;
use scan_range::Dealing;

/// What an index build is to do.
#[derive(Drop)]
pub struct Plan {
    /// The indexes to build, in their order.
    pub specs: Vec<KeySpec>,
    /// How many workers make pairs of the pages that are copied.
    pub workers: usize,
    pub dealing: Dealing,
    /// How many turns of feeding, applying and trying the switch the build takes before it is given up; 0 counts as 1.
    pub tries: u32,
    /// Whether the pairs of the indexes are asked for with the switch.
    pub keep_pairs: bool,
}
