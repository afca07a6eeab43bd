//! What runs of the whole program leave and tell where a call fails, where there is no memory, and at its limits.
//!
//! It has tests alone, over files in memory: `tables` (renames), `trims`, `reports` and `batches` have the rows, each
//! call failing in turn, and `run_tests` runs them, and the adapters over a real file. What each must leave is worked
//! outside. Whole runs in which nothing fails stand in `rows/`, and are run by the program itself.
#![tactic(auto)]

#[cfg(test)]
mod batches;
#[cfg(test)]
mod reports;
#[cfg(test)]
mod run_tests;
#[cfg(test)]
mod tables;
#[cfg(test)]
mod trims;
