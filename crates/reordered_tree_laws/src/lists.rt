// What a text binds whose lists have their items in a new order: a law that no caller runs.
ghost use Rattle.reordered_tree_laws.specs.Premises.{ReorderedBindAlike};

/// A text whose lists are in the new order binds name for name as before, where they can get it.
pub fn reordered_bind_alike()
    ensures { ReorderedBindAlike }
{}
