// What is true of workspaces over edited files: a law that no caller runs, and that callers' proofs cite.
ghost use Rattle.edited_unit_laws.specs.WorkspaceTexts.{WorkspaceIsRenamed, WorkspacesAreRenamed};

/// The units of a workspace over the edited files have the renamed texts, and the table that they leave has the same
/// paths and the edited bytes, where the renaming keeps what it must of each: of the units from some number on, and of all.
pub fn texts_are_renamed()
    ensures texts { WorkspacesAreRenamed }
    ensures all { WorkspaceIsRenamed }
{}
