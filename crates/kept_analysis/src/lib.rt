//! An analysis that goes on with the files behind a rename.
//!
//! `advance` takes the analysis of a workspace, a part of it and the new name of its class, against which nothing stands, and
//! gives the analysis of the files in which the members are spelled so. Nothing is preprocessed, read or bound again: the text of a
//! unit with tokens of no file that has a member stays as it is, other tokens are
//! respelled by the origins of their characters, positions move, trees and bindings stay, edited files are lexed anew, and the
//! table of classes goes on with its numbers. This is the analysis which the edited files have. Read `specs/Following.antt`,
//! then `advancing.rt`.
#![tactic(auto)]

mod advancing;
mod renamed_files;
mod renamed_texts;
mod still_texts;

pub use advancing::advance;
