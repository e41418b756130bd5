use crate::timeline_svg::{Gain, Lane, Row, Span};

/// The most rows of a picture.
pub const ROWS_MAX: usize = 200;

/// What a picture shows. Lanes and rows are named by their places in their lists, from 0.
#[derive(Drop)]
pub struct Timeline {
    pub title: String,
    /// Side by side, from the left.
    pub lanes: Vec<Lane>,
    /// One below the other.
    pub rows: Vec<Row>,
    /// What lasts for several rows.
    pub spans: Vec<Span>,
    /// What each index got, in the order of the rows.
    pub gains: Vec<Gain>,
}
