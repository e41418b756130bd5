//! Tests of the crates that index builds are made of, by their public calls alone: stories, each told in several ways,
//! and builds and sessions in threads.
#![tactic(auto)]

#[cfg(test)]
mod at_rest;
#[cfg(test)]
mod beside;
#[cfg(test)]
mod built;
#[cfg(test)]
mod calling;
#[cfg(test)]
mod ended;
#[cfg(test)]
mod events;
#[cfg(test)]
mod expected;
#[cfg(test)]
mod halves;
#[cfg(test)]
mod lent;
#[cfg(test)]
mod list_run;
#[cfg(test)]
mod list_spool;
#[cfg(test)]
mod listed;
#[cfg(test)]
mod listing;
#[cfg(test)]
mod made;
#[cfg(test)]
mod meetings;
#[cfg(test)]
mod one_session;
#[cfg(test)]
mod overlapping;
#[cfg(test)]
mod place;
#[cfg(test)]
mod programs;
#[cfg(test)]
mod refused;
#[cfg(test)]
mod reported;
#[cfg(test)]
mod rows;
#[cfg(test)]
mod seen;
#[cfg(test)]
mod session_steps;
#[cfg(test)]
mod spoiled;
#[cfg(test)]
mod stand;
#[cfg(test)]
mod stopped;
#[cfg(test)]
mod stories;
#[cfg(test)]
mod story;
#[cfg(test)]
mod tasks;
#[cfg(test)]
mod telling;
#[cfg(test)]
mod together;
#[cfg(test)]
mod turns;
#[cfg(test)]
mod watch;
#[cfg(test)]
mod writing;
