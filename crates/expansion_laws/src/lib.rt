//! What expansions keep (ISO/IEC 9899:1999, 6.10.3): laws over the definition of `macro_expand`.
//!
//! No program stands here. Each law is the `ensures` of a function without a body. Those of `expansions.rt` are proved
//! by one induction over the steps of an expansion (`proofs/ClosureLemmas.antt`): what is true of the tokens of the
//! run, and of all that is put in or made, is true of each token of the expansion and of each of which its notes tell.
//! `expansion_keeps_tests` says it of any test; others are what comes of it: that notes tell what happened, and that
//! links join identifiers of equal spelling; that tokens are made of whole tokens of files; that they stand where
//! tokens of the run stand; and that they are spelled as their kinds say, pasted ones too. What an expansion with a
//! fault gives is nothing here. Four more are of the definition as a whole: it is one step of itself and nothing else
//! is, tokens are expanded part by part, each token comes from somewhere, and what a renaming rests on. Their
//! statements stand in `specs/Laws.antt` and `specs/Renaming.antt` of `macro_expand`.
//!
//! `arranged.rt` says what stays where other tokens come to stand before or behind, as where the items of lists change
//! places. An expansion splits at each token that no macro put in, the converse of `expansion_goes_part_by_part`; so a
//! run falls into sections, each of which ends in such a token, as a parenthesis or a comma. An expansion goes on alike
//! where tokens differ in their lines and in white space before the first; so portions of a run that change places are
//! expanded as before, and ask for as much work. Along the cuts of `list_cuts` a whole run is expanded in the new
//! order. A token at an end of a run that no macro replaces and no call takes stays at that end.
//!
//! Read `specs/Telling.antt`, `specs/Passing.antt`, `specs/Pieces.antt` and `specs/Spelled.antt`; then
//! `specs/Splitting.antt`, `specs/Sections.antt`, `specs/Alike.antt`, `specs/Portions.antt`, `specs/Arranging.antt` and
//! `specs/Ends.antt`.
#![tactic(auto)]

mod arranged;
mod expansions;

pub use arranged::{
    ends_stay, expansion_goes_alike, expansion_splits, portions_compose, runs_are_arranged,
    runs_fall, runs_have_cuts,
};
pub use expansions::{
    expanded_tokens_are_spelled, expanded_tokens_are_whole, expanded_tokens_come_from_somewhere,
    expanded_tokens_stand_in_the_run, expansion_can_be_renamed, expansion_goes_part_by_part,
    expansion_goes_step_by_step, expansion_keeps_tests, notes_tell_what_happened,
};
