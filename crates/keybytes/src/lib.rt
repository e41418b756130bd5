//! Rows, keys and their bytes: what every layer of the index builder speaks of.
//!
//! A [`Row`] is a list of cells, and a [`KeySpec`] says which of its columns make a key, and which rows have one. Key bytes compare, as lists
//! of bytes, the way the columns compare, and no key of a specification begins another: so the layers above sort,
//! merge and search bytes, and never look into a key. A [`Rid`] says where a row stands, a [`Pair`] is an entry of an index,
//! and a [`Fault`] says why a call of any layer was refused.
#![tactic(auto)]

mod cell;
mod fault;
mod key;
mod key_cell;
mod key_col;
mod key_column;
mod key_in_place;
mod key_memory;
mod key_spec;
mod key_specs;
mod kind;
mod pair;
mod rid;
mod row;
mod row_bytes;
mod schema;
mod text;
mod when;

pub use cell::{Cell, TEXT_MAX};
pub use fault::Fault;
pub use key::{KEY_INLINE, KEY_MAX, Key};
pub use key_col::KeyCol;
pub use key_in_place::KeyInPlace;
pub use key_memory::KeyMemory;
pub use key_spec::{KEY_COLUMNS_MAX, KeySpec};
pub use key_specs::copied_specs;
pub use kind::Kind;
pub use pair::Pair;
pub use rid::Rid;
pub use row::{CELLS_MAX, Row};
pub use schema::{COLUMNS_MAX, Schema};
pub use text::Text;
pub use when::When;
