//! Definitions and lemmas on what follows from a start, over a list.
//!
//! There is no code here: what follows from a start by a relation over a list, and the laws that it
//! has the start, is closed under the relation, and is the least that is (`law_of_the_closure`).
#![tactic(auto)]

ghost use Rattle.closure.specs.Least.{ReachedIsLeast};

/// What is reached from a start, over a list of any elements.
pub fn law_of_the_closure<T>()
    // It has the start, it has all that follows from what it has, and it stands in every part of the list that is so.
    ensures least { ReachedIsLeast T }
{}
