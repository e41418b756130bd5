use crate::search::Search;
use crate::table::{Asked, Lines};
use command_line::IndexWords;
use std::alloc::Global;

/// What is known of a table beside its rows.
#[derive(Clone, Copy)]
pub struct Facts<'a, 'w> {
    pub alloc: Global,
    pub words: &'a IndexWords<'w>,
    pub asked: &'a Asked,
    /// What the first index is asked for.
    pub searches: &'a [Search],
    pub lines: &'a Lines,
    pub rows: u64,
    pub left_out: u64,
    /// How many pages the table has.
    pub pages: u32,
}
