//! What happened to a table, record by record, drawn as SVG.
//!
//! A [`Timeline`] says what is to be seen: [`Row`]s one below the other, a record each, and [`Lane`]s side by side, in which the rows have their
//! [`Mark`]s. [`svg`] draws it. Nothing runs here, and nothing is known of scripts.

mod drawing;
mod escape;
mod fitting;
mod gain;
mod labels;
mod lane;
mod layout;
mod legend;
mod mark;
mod pen;
mod picture_error;
mod row;
mod span;
mod stack;
mod style;
mod timeline;

pub use drawing::svg;
pub use gain::{Gain, GainKind};
pub use lane::{Lane, LaneKind};
pub use mark::{Mark, MarkKind, Side};
pub use picture_error::PictureError;
pub use row::{Row, RowKind};
pub use span::{Span, SpanKind};
pub use stack::Stack;
pub use timeline::{ROWS_MAX, Timeline};
