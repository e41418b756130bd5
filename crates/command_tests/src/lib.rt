//! Tests of what the programs print and answer: scripts, races, conversations, pictures and indexes of files as tables of texts; streams that fail
//! and scripts that are cut off; the words that the programs take, and small measured runs.
#![tactic(auto)]

#[cfg(test)]
mod case;
#[cfg(test)]
mod conversations;
#[cfg(test)]
mod cut;
#[cfg(test)]
mod cuts;
#[cfg(test)]
mod explanations;
#[cfg(test)]
mod faults;
#[cfg(test)]
mod index_files;
#[cfg(test)]
mod index_orders;
#[cfg(test)]
mod index_refusals;
#[cfg(test)]
mod index_words;
#[cfg(test)]
mod layers;
#[cfg(test)]
mod long_scripts;
#[cfg(test)]
mod measured_runs;
#[cfg(test)]
mod pictures;
#[cfg(test)]
mod printed;
#[cfg(test)]
mod program_words;
#[cfg(test)]
mod race_runs;
#[cfg(test)]
mod races;
#[cfg(test)]
mod run;
#[cfg(test)]
mod said;
#[cfg(test)]
mod scripts;
#[cfg(test)]
mod spellings;
#[cfg(test)]
mod stories;
#[cfg(test)]
mod stream;
#[cfg(test)]
mod tables;
#[cfg(test)]
mod task;
#[cfg(test)]
mod verdicts;
#[cfg(test)]
mod well_formed;
