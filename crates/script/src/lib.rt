//! Scripts: texts of comma-separated records, each with the name of a command first.
//!
//! [`Script::parse`] looks at all records of a text. It gives the table that the script is about and its [`Command`]s
//! in their order, each with the number of its record, or the number of the first bad record. [`Script::check`] says
//! what is wrong with that record. Nothing runs here: the layers above run commands, and only where every record is
//! good. [`read_input_line`] tells of each record of a line what it is, for those who answer a script line by line.
#![tactic(auto)]

mod cause;
mod check_error;
mod command;
mod command_name;
mod draft;
mod excerpt;
mod explanation;
mod fields;
mod fitting;
mod input_line;
mod input_record;
mod label;
mod line;
mod misfit;
mod numbered_command;
mod parse;
mod part;
mod race;
mod reading;
mod record_error;
mod records;
mod script;
mod script_draft;
mod script_error;
mod spec;
mod spelled;
mod start;
mod stop;
mod table;
mod unfit;

pub use cause::Cause;
pub use check_error::CheckError;
pub use command::Command;
pub use command_name::CommandName;
pub use excerpt::Excerpt;
pub use explanation::Explanation;
pub use input_line::read_input_line;
pub use input_record::InputRecord;
pub use label::Label;
pub use line::Line;
pub use misfit::Misfit;
pub use numbered_command::NumberedCommand;
pub use part::Part;
pub use race::{Build, RaceName, RaceScript, SessionCommand, SessionStep};
pub use records::Records;
pub use script::{Script, read_text};
pub use script_error::ScriptError;
pub use spec::Spec;
pub use start::Start;
pub use table::Table;
pub use unfit::Unfit;
