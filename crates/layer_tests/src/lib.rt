//! Tests of the layers that a build stands on, by their public calls alone: cases as tables, and for each kind of case what does its steps.
#![tactic(auto)]

#[cfg(test)]
mod calling;
#[cfg(test)]
mod cases;
#[cfg(test)]
mod chunks;
#[cfg(test)]
mod desk;
#[cfg(test)]
mod entries;
#[cfg(test)]
mod fixtures;
#[cfg(test)]
mod logs;
#[cfg(test)]
mod merges;
#[cfg(test)]
mod pages;
#[cfg(test)]
mod pools;
#[cfg(test)]
mod rows;
#[cfg(test)]
mod sorts;
#[cfg(test)]
mod spools;
#[cfg(test)]
mod tables;
#[cfg(test)]
mod trees;
#[cfg(test)]
mod workers;
