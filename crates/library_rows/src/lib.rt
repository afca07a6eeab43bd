//! Worked rows of what no command shows by itself.
//!
//! It has tests alone: `advance_tests` of analyses that go on with their files behind a renaming, `graph_tests` of what is asked
//! of a graph of calls (ISO/IEC 9899:1999, 6.5.2.2, 6.9.1 and 6.10.3), `list_tests` of items that change places, and `limit_tests`
//! of the longest batch file. What each must give is worked outside. What a command shows stands in `rows/`.
#![tactic(auto)]

#[cfg(test)]
mod advance_tests;
#[cfg(test)]
mod graph_tests;
#[cfg(test)]
mod limit_tests;
#[cfg(test)]
mod list_tests;
