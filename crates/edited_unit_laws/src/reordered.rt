// What is true of analyses over files in which lists are in a new order: laws that no caller runs, and that callers' proofs cite.
ghost use Rattle.edited_unit_laws.specs.ReorderedAnalyses.{UnitAnalysesAreReordered, WorkspaceIsReordered};
ghost use Rattle.edited_unit_laws.specs.Paths.{ListsMovePaths, PathsStay};
ghost use Rattle.edited_unit_laws.specs.Texts.{ListsStandInRuns, TextsStand};
ghost use Rattle.edited_unit_laws.specs.TokenRuns.{WorkspaceTokensAreOfRuns};
ghost use Rattle.edited_unit_laws.specs.Workspaces.{TablesAreOne, WorkspacesAreReordered};

use crate::analyses::analyses_are_texts_that_read;
use arranged_text_laws::{items_stay, moved_files_are_arranged, numbers_do_not_matter};
use unit_laws::{files_stand, tokens_are_of_runs, units_are_reordered};

/// Over edited files the units of a workspace have their tokens in the new order, by their kinds and spellings, and each is read
/// by its standard and bound, where the lists of each unit stand in it, its runs of the edited files are the old ones in the new
/// order, and tokens in the new order are read and bound: of the units from some number on, and of all. The table of files has
/// the edited bytes.
pub fn analyses_are_reordered()
    ensures units { UnitAnalysesAreReordered }
    ensures all { WorkspaceIsReordered }
{
    analyses_are_texts_that_read();
    units_are_reordered();
}

/// A file whose bytes are in the new order has a text in the new order, with the items that it had, where its tokens are so and
/// its lists stand in runs: no list goes on from one item to another, and lists stand in runs of text lines alone. So the cut of
/// lists does, each of which stands in a run, where no item begins with a `#`.
pub fn texts_stand()
    ensures texts { TextsStand }
    ensures lists { ListsStandInRuns }
{
    items_stay();
}

/// So it is with a workspace where the text of each file is the old one in the new order, and in each run that a unit reaches
/// stand the lists that its file has there, with the marks that they have in the unit. A table that is edited by path is the
/// one that is edited by number, where the bytes are the same.
pub fn workspaces_are_reordered()
    ensures all { WorkspacesAreReordered }
    ensures tables { TablesAreOne }
{
    files_stand();
    analyses_are_reordered();
}

/// Each token of each unit of a workspace was put out by a run of text lines that the unit reached, and the files of the
/// workspace are what the paths hold.
pub fn workspace_tokens_are_of_runs()
    ensures { WorkspaceTokensAreOfRuns }
{
    analyses_are_texts_that_read();
    tokens_are_of_runs();
}

/// A file whose lists may move, and in which they do, has a text in the new order, whatever its number; one without lists, which
/// stays, has the text that it had.
pub fn paths_stand()
    ensures lists { ListsMovePaths }
    ensures stay { PathsStay }
{
    moved_files_are_arranged();
    numbers_do_not_matter();
    texts_stand();
    files_stand();
}
