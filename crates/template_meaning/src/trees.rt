// What is true of the tree of every text that is read, as far as lists rest on it: laws that no caller runs.
ghost use Rattle.template_meaning.specs.Children.{ChildrenAreOfAlternatives};
ghost use Rattle.template_meaning.specs.Ends.{TokensMayStand};
ghost use Rattle.template_meaning.specs.Forms.{TreesHaveForms};

/// The children of each node of a tree that is read are those of one alternative of its production; and below a node that is
/// no function, no statement and no declaration but that of parameters or members there is none of these.
pub fn children_are_of_alternatives()
    ensures { ChildrenAreOfAlternatives }
{}

/// The tree that is read of a text has all the forms that binding in a new order asks for, where its lists are bracketed and
/// the list that a body begins with is no part of an item of one.
pub fn trees_have_forms()
    ensures { TreesHaveForms }
{}

/// No token of a text that is read is `#`; and an argument or a parameter has tokens, the last of which is no `/` and no `(`.
pub fn tokens_may_stand()
    ensures { TokensMayStand }
{}
