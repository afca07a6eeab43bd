//! Worked calls of what every layer shares and of the text layers (ISO/IEC 9899:1999, 5.1.1.2, 6.4 and 6.10).
//!
//! It has tests alone: `base_tests` of the outside in memory, tokens and steps, `token_tests` of characters, lines and
//! tokens, `item_tests` of the lines of directives. What each must give is worked outside.
#![tactic(auto)]

#[cfg(test)]
mod base_tests;
#[cfg(test)]
mod item_tests;
#[cfg(test)]
mod token_tests;
