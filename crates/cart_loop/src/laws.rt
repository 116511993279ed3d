//! What is known of settled carts from their definitions alone.
ghost use Rattle.cart_loop.specs.Answer.{SettlingIsTheAnswer};

/// A cart has one answer at a moment: just what it is settled at, or the rule that is broken.
pub fn law_of_the_answer()
    ensures { SettlingIsTheAnswer }
{}
