//! Worked calls of macro expansion and of conditions (ISO/IEC 9899:1999, 6.10.1, 6.10.3 and 6.10.8).
//!
//! It has tests alone: `paste_tests` of pasted tokens and of strings, `definition_tests` of the table of macros,
//! `expansion_tests` of whole texts of definitions and lines (the rows stand in `standard_rows`, `operator_rows` and
//! `fault_rows`; `expansion_texts` expands them), `condition_tests` of the values of conditions. What each must give is
//! worked outside.
#![tactic(auto)]

#[cfg(test)]
mod condition_tests;
#[cfg(test)]
mod definition_tests;
#[cfg(test)]
mod expansion_tests;
#[cfg(test)]
mod expansion_texts;
#[cfg(test)]
mod fault_rows;
#[cfg(test)]
mod operator_rows;
#[cfg(test)]
mod paste_tests;
#[cfg(test)]
mod standard_rows;
