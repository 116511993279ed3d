//! What holds of drafts and merges, in functions that do no work.
ghost use Rattle.shop_drafts.specs.Laws.{DraftsAreViews, DraftsShowTheirParts, MergesAreReplays, NothingElseChanges, PartsAreThese, ReplaysKeepRows};
ghost use Rattle.shop_drafts.specs.WorkedRows.{TheTeeIsMerged, TheMergeIsBroken, ADraftMayRunInACircle};

/// What is part of a product or a category where a draft of it is edited.
pub fn law_of_the_parts()
    ensures { PartsAreThese }
{}

/// What a draft shows of rows in order is in order, and an accepted batch in it is one over what it
/// shows.
pub fn law_of_the_views()
    ensures { DraftsAreViews }
{}

/// The rows of its version that a draft shows are those that it edits, also after batches in it.
pub fn law_of_the_parts_shown()
    ensures { DraftsShowTheirParts }
{}

/// A merge is the replay of the draft's operations, one after the other as live batches do them, and
/// leaves nothing of the draft.
pub fn law_of_merges()
    ensures { MergesAreReplays }
{}

/// A replay keeps live rows coherent and well formed, and leaves drafts and their commits.
pub fn law_of_replays()
    ensures { ReplaysKeepRows }
{}

/// What is done with a draft changes nothing beside it.
pub fn law_of_other_rows()
    ensures { NothingElseChanges }
{}

/// Two days of a shop, as the definitions have them: a draft that is merged, and one that isn't; and
/// a draft whose view isn't coherent.
pub fn law_of_the_worked_rows()
    ensures merged { TheTeeIsMerged }
    ensures broken { TheMergeIsBroken }
    ensures circle { ADraftMayRunInACircle }
{}
