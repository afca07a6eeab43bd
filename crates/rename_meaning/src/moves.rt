// Where positions move: laws that no caller runs, and that callers' proofs cite.
ghost use Rattle.rename_meaning.specs.OneMove.{ClassesFollow, FileTokensFollow, PartsMoveAlike, TokensAreMoved, TokensMoveAlike};

/// Where nothing stands against a renaming, parts and file tokens stand in the edited files where the table of classes puts
/// them once the class has the new length.
pub fn positions_move_alike()
    ensures parts { PartsMoveAlike }
    ensures tokens { TokensMoveAlike }
{}

/// So a table of classes in which the class of a named part has the new length has the file tokens of the renamed analysis, and its
/// classes: what was known of them goes on with the files behind a rename.
pub fn classes_follow()
    ensures moved { TokensAreMoved }
    ensures tokens { FileTokensFollow }
    ensures classes { ClassesFollow }
{
    positions_move_alike();
}
