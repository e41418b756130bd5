/// Where the pairs of a page stand: `count` pairs from `start` to `end`, of which the one with number `cursor` begins at
/// `offset`.
#[derive(Clone, Copy)]
pub(crate) struct Marks {
    pub(crate) start: usize,
    pub(crate) end: usize,
    pub(crate) count: usize,
    pub(crate) cursor: usize,
    pub(crate) offset: usize,
}
