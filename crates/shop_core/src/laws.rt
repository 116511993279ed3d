//! What holds of steps and histories.
ghost use Rattle.shop_core.specs.Carts.{SoundNamesAreTexts, SoundRowsAreCartRows};
ghost use Rattle.shop_core.specs.Commits.{CommitsAreTheReplay};
ghost use Rattle.shop_core.specs.Steps.{LiveRowsAreReplaced};
ghost use Rattle.shop_core.specs.History.{OneEntryMore, PrefixesStay, EachIsCounted, RowsStaySound};

/// Live rows that are put in place of others stand so, in key order, and the rows of drafts stay.
pub fn law_of_live_rows()
    ensures { LiveRowsAreReplaced }
{}

/// What one entry more at the end of a history does to its replay, to whether it is legal, and to
/// the entries of each caller.
pub fn law_of_one_entry_more()
    ensures { OneEntryMore }
{}

/// A prefix of a legal history is legal, and gives the same rows at each front up to its end.
pub fn law_of_prefixes()
    ensures { PrefixesStay }
{}

/// A legal history counts each entry.
pub fn law_of_counting()
    ensures { EachIsCounted }
{}

/// Steps leave sound rows sound, of commands whose parts are in the ranges of their types.
pub fn law_of_sound_rows()
    ensures { RowsStaySound }
{}

/// After any list of commits, the rows and the number are the replay of the accepted ones.
pub fn law_of_the_commits()
    ensures { CommitsAreTheReplay }
{}

/// Sound rows are all that is relied on where a cart is settled.
pub fn law_of_cart_rows()
    ensures { SoundRowsAreCartRows }
{}

/// The lines of a cart of sound rows are called by their products' names byte by byte.
pub fn law_of_the_names()
    ensures { SoundNamesAreTexts }
{}
