//! What holds of stock and orders, in functions that do no work.
ghost use Rattle.shop_order.specs.FieldNumbers.{AreOfTheTables};
ghost use Rattle.shop_order.specs.WorkedRows.{TheDay};

/// The numbers of the fields and the words that are written are those of the tables.
pub fn law_of_the_tables()
    ensures { AreOfTheTables }
{}

/// A day of a shop, as the definitions have it.
pub fn law_of_the_worked_day()
    ensures { TheDay }
{}
