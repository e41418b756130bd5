//! The table with its builds, for programs in C and in other languages that call C. `include/sfbuild.h` is what they read.
//!
//! The caller keeps a [`Session`](session::Session), a struct that is all zero while no table is open, and passes its address. Each call takes the table out
//! of it, does what a [`Kept`](kept_table::Kept) does, and puts it back, which takes no memory; so no call trusts the caller that a table is open.
//! A call answers a status: 0, or why not, and what a refusal says beside its number stands in the session.
#![tactic(auto)]

mod bare;
mod buffer;
mod builds;
mod calls;
mod cause;
mod cell_bytes;
mod held;
mod index_bytes;
mod kind_bytes;
mod lookups;
mod place;
mod progress;
mod reads;
mod session;
mod status;
mod table;
mod tells;
mod verdict;
mod writes;
