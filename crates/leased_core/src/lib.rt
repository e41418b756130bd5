//! A core whose spools lease their pages from a pool of their build.
//!
//! [`LeasedCore`] is a core that makes the spools of a build when it starts, over [`Leases`]: each gets a quota of pages of the build's own pool. Once
//! the build has ended, by a switch or by giving it up, the spools are given up and each page is back. Why an event is refused, and what it
//! does, is told by the core's own words; what the spools have to do with it, by `specs/Leasing.antt`. A [`UnnamedLeased`] is one whose name was taken off.
#![tactic(auto)]

mod handed_back;
mod leased;
mod leases;
mod unnamed_leased;

pub use handed_back::HandedBack;
pub use leased::LeasedCore;
pub use leases::Leases;
pub use unnamed_leased::UnnamedLeased;
