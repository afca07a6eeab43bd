//! What keeping meaning asks of a renaming (this project's, over ISO/IEC 9899:1999, 5.1.1.2 phases 4 and 7), on worked rows.
//!
//! Behind a renaming that is done, the analysis of the edited files is the renamed one. So the renamed tokens of each unit are
//! read and bound as before; here it is shown on small programs that this does not hold where the new name occurs already,
//! makes two names one, or uncovers a typedef name, and that an offence stands against each such renaming. Where two units of a
//! project declare two names that become one, each is read and bound as before, and they share an entity that they did not.
//! Beside each stands a renaming that keeps it. No caller runs these functions. Read `specs/Clause.antt`, `specs/Rows.antt`,
//! `specs/Shared.antt`, then `rows.rt`.
#![tactic(auto)]

mod laws;
mod rows;

pub use laws::{
    clashing_names_break_meaning, clashing_names_break_sharing, kept_meaning_reads_alike,
    occurring_names_break_meaning, rows_are_preprocessed, uncovered_typedefs_break_meaning,
};
pub use rows::{
    name_pasted_apart, name_shared_by_no_unit, name_that_is_new, place_that_hides_nothing,
};
