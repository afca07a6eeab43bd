//! Worked workspaces (ISO/IEC 9899:1999, 5.1.1.2, 6.2.2 and 6.10): their files, texts, faults and classes.
//!
//! It has tests alone, of what no command shows: `file_tests` of workspace files and their limits, `text_tests` (its rows stand in
//! `text_rows`) of what preprocessing tells beside tokens, `file_tokens_tests` of the tokens of kept files, `linking_tests` of
//! classes, `order_tests` of the order of places; `workspaces` makes and shows what several of them use, `rows` cuts the texts
//! that rows stand in. What each must give is worked outside. What a command shows stands in `rows/`.
#![tactic(auto)]

#[cfg(test)]
mod file_tests;
#[cfg(test)]
mod file_tokens_tests;
#[cfg(test)]
mod linking_tests;
#[cfg(test)]
mod order_tests;
#[cfg(test)]
mod rows;
#[cfg(test)]
mod text_rows;
#[cfg(test)]
mod text_tests;
#[cfg(test)]
mod workspaces;
