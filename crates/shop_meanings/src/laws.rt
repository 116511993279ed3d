//! What holds of the meanings, in functions that do no work.
ghost use Rattle.shop_meanings.specs.Laws.{PathsOfAllGoUp, ChildrenOfAllAreCounted};
ghost use Rattle.shop_meanings.specs.WorkedRows.{ShirtsAreMoved};

/// A path goes from a root down to the parent, and a walk of 31 steps comes as far as one of as many
/// steps as there are categories.
pub fn law_of_the_paths()
    ensures { PathsOfAllGoUp }
{}

/// How many children a category has.
pub fn law_of_the_children()
    ensures { ChildrenOfAllAreCounted }
{}

/// A category that is moved, as the definitions have it.
pub fn law_of_the_worked_rows()
    ensures { ShirtsAreMoved }
{}
