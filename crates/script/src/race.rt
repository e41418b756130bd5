//! Scripts of races: a table, its rows, the kind of spools and a build, and for each session what it does while the build runs.

mod build;
mod draft;
mod fitting;
mod line;
mod name;
mod parse;
mod script;
mod session_command;
mod session_step;

pub use build::Build;
pub use name::RaceName;
pub use script::RaceScript;
pub use session_command::SessionCommand;
pub use session_step::SessionStep;
