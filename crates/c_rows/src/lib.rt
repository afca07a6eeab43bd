//! Worked texts of C, read and bound (ISO/IEC 9899:1999, 6.2.1 to 6.2.3 and Annex A.2).
//!
//! It has tests alone: `grammar_tests` of the classes of tokens and of what starts with them, `tree_tests` of trees
//! and visible names, `reading_tests` of what is read or refused, `c11_tests` and `gnu_tests` of the same by C11 and GNU
//! C, `anonymous_tests` of anonymous members, `binding_tests` of the entity of each name, of what lists tell, and of the
//! first fault (the rows stand in `entity_rows`, `gnu_entity_rows`, `list_rows` and `fault_rows`), and `long_tests` of
//! texts that are long and not deep. `refusals` has the rows' words for faults. What each text must give is worked
//! outside.
#![tactic(auto)]

#[cfg(test)]
mod anonymous_tests;
#[cfg(test)]
mod binding_tests;
#[cfg(test)]
mod c11_tests;
#[cfg(test)]
mod entity_rows;
#[cfg(test)]
mod fault_rows;
#[cfg(test)]
mod front_tests;
#[cfg(test)]
mod gnu_entity_rows;
#[cfg(test)]
mod gnu_tests;
#[cfg(test)]
mod grammar_tests;
#[cfg(test)]
mod list_rows;
#[cfg(test)]
mod long_tests;
#[cfg(test)]
mod reading_tests;
#[cfg(test)]
mod refusals;
#[cfg(test)]
mod tree_tests;
