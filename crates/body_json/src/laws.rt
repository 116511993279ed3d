//! What the pointers of refused bodies name.
ghost use Rattle.body_json.specs.FirstPlaces.{TheFirstIsNamed, TheLeastIsNamed};

/// A value is no batch exactly where one of its places is wrong, and the pointer names the first of
/// these places: the named place is wrong, and none before it is.
pub fn law_of_the_first_wrong_place()
    ensures { TheFirstIsNamed }
{}

/// The members of an object that is read stand in the order of their names, so the first unknown
/// member of an element is the one with the least name.
pub fn law_of_the_least_unknown_member()
    ensures { TheLeastIsNamed }
{}
