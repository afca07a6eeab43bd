// What is true of the names of a text whose lists are in a new order: laws that no caller runs.
ghost use Rattle.reordered_tree_laws.specs.ReorderedNames.{ReorderedNamesAgree};

/// Names that agree with a tree agree with it when its lists are in a new order.
pub fn reordered_names_agree()
    ensures { ReorderedNamesAgree }
{}
