//! Worked translation units (ISO/IEC 9899:1999, 5.1.1.2 and 6.10): what preprocessing gives of files in memory.
//!
//! It has tests alone: `tests` of whole units, `header_tests` of what include lines ask for. What each must give is
//! worked outside.
#![tactic(auto)]

#[cfg(test)]
mod header_tests;
#[cfg(test)]
mod tests;
