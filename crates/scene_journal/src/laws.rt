//! Laws of records, and of the records of frames.
ghost use Rattle.scene_journal.specs.Frames.{FramesAreRecords, FramesMakeFewDeltas};
ghost use Rattle.scene_journal.specs.FurtherKind.{DeclaredKindsChangeNoRecord};
ghost use Rattle.scene_journal.specs.Laws.{RecordsComeBack};

/// A law of a record: what `scene_deltas::deltas_come_back` says of a delta holds of a whole record, which raises the
/// tick first and sets it back last.
pub fn records_come_back()
    ensures { RecordsComeBack }
{}

/// A law of frames of queues: the record of one that a valid world accepts fits on that world, and redoing it gives the
/// world after the frame. It has at most as many deltas as the frame has commands and despawns descendants.
pub fn frames_are_records()
    ensures leads { FramesAreRecords }
    ensures few { FramesMakeFewDeltas }
{}

/// A law of a record where a kind is declared, in any world: with it the record leads to the same world and the kind,
/// redone and undone, and it fits where it did.
pub fn declared_kinds_change_no_record()
    ensures { DeclaredKindsChangeNoRecord }
{}
