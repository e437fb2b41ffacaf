//! Worked examples, which the definitions compute.
ghost use Rattle.scene_journal.specs.Examples.{FellingIsNoted, OthersAreRefused};

/// The definitions compute the records of two frames, delta by delta, and the worlds before and after them; and a
/// record of another tick, a cell that differs and a link of an entity to itself fit nowhere.
pub fn worked_records_hold()
    ensures frames { FellingIsNoted }
    ensures refusals { OthersAreRefused }
{}
