// What stays in every new order: laws that no caller runs.
ghost use Rattle.reordered.specs.Staying.{ReorderedPathsStay, ReorderedStandardsStay};

/// A table of files has the paths that it had, by their numbers.
pub fn reordered_paths_stay()
    ensures { ReorderedPathsStay }
{}

/// Each unit is read by the standard that it was.
pub fn reordered_standards_stay()
    ensures { ReorderedStandardsStay }
{}
