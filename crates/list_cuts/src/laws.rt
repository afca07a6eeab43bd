// What is true of elements in a new order: laws that no caller runs, and that callers' proofs cite.
ghost use Rattle.list_cuts.specs.Laws.{ElementsMove, FollowersStay, ImagesMove, ListsAreCuts};

/// No element is lost and none is made, and what follows the lists stays where it is.
pub fn elements_move<T>()
    ensures moves { ElementsMove T }
    ensures stays { FollowersStay T }
{}

/// What each element becomes goes along with it.
pub fn images_move<T, U>()
    ensures { ImagesMove T U }
{}

/// Lists that change places one after the other do what the cut of them all does.
pub fn lists_are_cuts<T>()
    ensures { ListsAreCuts T }
{}
