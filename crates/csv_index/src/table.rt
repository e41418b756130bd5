//! A table that is filled from a file of comma-separated records, and what is asked for on it.
//!
//! [`Asked`] is what the words of the command `index` ask for: columns by their names, and what makes the keys of indexes on them. [`fill`] puts
//! the rows of a text into a table, and notes the line of each.

mod asked;
mod bad_row;
mod cell_fault;
mod column;
mod condition;
mod failure;
mod field;
mod filling;
mod header;
mod key_columns;
mod key_sizes;
mod layout;
mod line_counter;
mod lines;
mod list;
mod refusal;
mod source;
mod watch;

pub use asked::Asked;
pub use bad_row::BadRow;
pub use cell_fault::CellFault;
pub use column::Column;
pub use failure::Failure;
pub use field::cell;
pub use filling::{Filled, Reading, fill};
pub use key_sizes::KeySizes;
pub use lines::Lines;
pub use list::record;
pub use refusal::Refusal;
pub use watch::Watch;
