//! Laws of the definitions, in functions that do no work.
ghost use Rattle.shop_operations.specs.Outcomes.{RowsTakeWhatIsGiven};

/// What the row that an upsert leaves has.
pub fn law_of_the_given_row()
    // A field that was given a value has it, one that was given null has its preset or nothing, and any other is as before, or
    // has its preset. Each field stands once, in order, if it did.
    ensures { RowsTakeWhatIsGiven }
{}
