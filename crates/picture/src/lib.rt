//! The picture of a script's run.
//!
//! [`picture`] runs a script as `replay` does, one command after the other in one thread, looks at the table before and behind each, and draws what
//! it saw. [`Story`] is what it saw so far; [`Sight`] is what is known of the build that runs. `timeline_svg` draws it.
#![tactic(auto)]

mod deed;
mod failure;
mod gains;
mod lanes;
mod lasting;
mod record_text;
mod records;
mod run;
mod sides;
mod sight;
mod story;
mod teller;
mod telling;
mod timeline_svg;
mod txn_lane;
mod words;

pub use failure::Failure;
pub use run::{picture, title};
pub use sight::Sight;
pub use story::Story;
