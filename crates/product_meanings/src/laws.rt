//! What holds of the meanings, in functions that do no work.
ghost use Rattle.product_meanings.specs.Laws.{AnswersOfAllAreOfRows, PickedOfAll, PricesOfAll};
ghost use Rattle.product_meanings.specs.WorkedRows.{ShirtsAreSold};

/// The products that pass a test, by id.
pub fn law_of_the_picked()
    ensures { PickedOfAll }
{}

/// The least and the greatest of offers.
pub fn law_of_the_prices()
    ensures { PricesOfAll }
{}

/// When a question is answered, and when no row has the key that it names.
pub fn law_of_the_answers()
    ensures { AnswersOfAllAreOfRows }
{}

/// A shop's products, as the definitions have them.
pub fn law_of_the_worked_rows()
    ensures { ShirtsAreSold }
{}
