//! What holds of drafts, in functions that do no work.
ghost use Rattle.shop_version.specs.Laws.{StayCoherent, StayDrafted};

/// Whatever is done leaves rows with drafts that can be worked on: a draft is made, a batch is done in
/// it, it is dropped or merged, or a batch is done on the live rows.
pub fn law_of_drafted_rows()
    ensures { StayDrafted }
{}

/// Where a draft is made, written, dropped or merged over live rows that fit one another, the live
/// rows then fit one another.
pub fn law_of_coherent_rows()
    ensures { StayCoherent }
{}
