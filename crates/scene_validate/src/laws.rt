//! Laws of parts, and worked examples, which the definitions compute.
ghost use Rattle.scene_validate.specs.Examples.{SmallIsAWorld, BrokenSlots, BrokenRows, BrokenLinks, BrokenResources};
ghost use Rattle.scene_validate.specs.Laws.{UnbrokenMakeWorlds, WorldsBreakNone, WorldsHaveParts};

/// Laws: parts whose numbers and texts are in the ranges of their types break no rule exactly where they are those of
/// a valid world, in whatever order their lists stand; and each world has its parts, of which it is made again
/// (docs/MODEL.md, "A valid world").
pub fn unbroken_parts_are_those_of_valid_worlds()
    ensures sound { UnbrokenMakeWorlds }
    ensures complete { WorldsBreakNone }
    ensures own { WorldsHaveParts }
{}

/// The definitions compute these: small parts that make a world, and the first rule that each change of them breaks
/// (docs/MODEL.md, "A valid world").
pub fn worked_parts()
    ensures world { SmallIsAWorld }
    ensures slots { BrokenSlots }
    ensures rows { BrokenRows }
    ensures links { BrokenLinks }
    ensures resources { BrokenResources }
{}
