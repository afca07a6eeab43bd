//! Worked classes of parts, and the links of names over units (ISO/IEC 9899:1999, 6.2.2).
//!
//! It has tests alone: `class_tests` of parts that are joined, cut and made longer, `history_tests` of how little such joins relabel
//! in sum, `linkage_tests` of the links between names of several units. What each must give is worked outside.
#![tactic(auto)]

#[cfg(test)]
mod class_tests;
#[cfg(test)]
mod history_tests;
#[cfg(test)]
mod linkage_tests;
