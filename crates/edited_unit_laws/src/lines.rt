// What is true of renamed texts: laws that no caller runs, and that callers' proofs cite.
ghost use Rattle.edited_unit_laws.specs.Conditions.{ConditionsCountAlike};
ghost use Rattle.edited_unit_laws.specs.EditedTokens.{EditedFilesKeepTokens};
ghost use Rattle.edited_unit_laws.specs.Lines.{DefinitionsAreRenamed, ItemsAreRenamed};
ghost use Rattle.edited_unit_laws.specs.UnitLines.{ConditionsStay, ItemTextsAreRenamed, OperandsAreRenamed};

/// A file in which each member of a class is spelled as a name has the old tokens, each with the spelling that
/// its origins give it, where identifiers alone change, each into an identifier.
pub fn edited_files_keep_tokens()
    ensures { EditedFilesKeepTokens }
{}

/// Renamed tokens have the items of the old ones, moved, where the words of directives, `defined`, `__VA_ARGS__`
/// and all that is neither an identifier nor a string literal stay, and parameters stay those names of a definition that
/// they were.
pub fn items_are_renamed()
    ensures { ItemsAreRenamed }
{}

/// The renamed tokens of a `define` line give the renamed definition.
pub fn definitions_are_renamed()
    ensures { DefinitionsAreRenamed }
{}

/// A controlling expression has the value, or the fault, of each other one whose tokens are of the same kinds,
/// and are spelled as before where they are neither identifiers nor string literals.
pub fn conditions_count_alike()
    ensures { ConditionsCountAlike }
{}

/// The same of units: items with their tokens, the operands of `defined` in a condition, and its value.
pub fn unit_lines_are_renamed()
    ensures items { ItemTextsAreRenamed }
    ensures operands { OperandsAreRenamed }
    ensures values { ConditionsStay }
{}
