// What is true of cuts by their marks: laws that no caller runs, and that callers' proofs cite.
ghost use Rattle.reordered_text_laws.specs.MarkedCuts.{CutsAreTidied, MarkedCutsAreNested, MarkedCutsSplit, MarksTellCuts, NestedMarksHaveCuts, TidiedCutsArrange};

/// The lists of a cut with marks stand in one another, or one behind the other; and the marks tell the cut. Lists whose
/// marks stand so have a cut. Where each list stands on one side of an element, the two parts of the cut have the lists.
pub fn cuts_are_marked()
    ensures nested { MarkedCutsAreNested }
    ensures told { MarksTellCuts }
    ensures had { NestedMarksHaveCuts }
    ensures split { MarkedCutsSplit }
{}

/// A cut in which elements that stay are told together has the same marks, and puts elements in the same order.
pub fn cuts_are_tidied<T>()
    ensures tidied { CutsAreTidied }
    ensures arranged { TidiedCutsArrange T }
{}
