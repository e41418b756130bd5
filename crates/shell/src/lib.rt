//! The language of scripts by hand: a conversation in which each record is answered at once.
//!
//! [`shell`] reads its input line by line. Each record is numbered and answered as a script's is by `replay`, and the answer is sent on before the
//! next line is read. A bad record is answered too, and the conversation goes on. Beside the commands of scripts it knows the words `help`,
//! `status` and `quit`.
#![tactic(auto)]

mod answering;
mod asked;
mod before_table;
mod build_counts;
mod build_line;
mod complaint;
mod counts;
mod failed;
mod help;
mod index_counts;
mod input;
mod numbered_record;
mod printing;
mod report;
mod run;
mod status_line;
mod wait;
mod word;
mod worker_counts;

pub use run::shell;
