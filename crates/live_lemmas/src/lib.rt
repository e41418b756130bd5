//! What the two halves of a build have to do with each other: a table, and what stands beside it while its indexes are built.
//!
//! There is no function here: it is the meaning that live_table and the crates above it speak of. `specs/Builds.antt` says what a table keeps and
//! when the work beside it goes with the build that runs (`StandsBeside`), `specs/Switching.antt` what a switch looks at, and `specs/CatchingUp.antt`
//! how far the indexes are with their side-files. `proofs/` has what follows: that each step of a build keeps both halves together (Takes, Turns,
//! HandedOver, Loaded, IndexApplied), that its causes stand where they are told (LoadCauses, ApplyCauses, Unloaded), and that
//! halves that were kept apart are together again once nothing is left over (Reunited).
#![tactic(auto)]
