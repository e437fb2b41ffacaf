//! Worked examples, which the definitions compute.
ghost use Rattle.scene_machine.specs.Examples.{NothingToTakeBack, SpawnComesAndGoes, NewFrameEmptiesRedo, EmptyFramesCount, QueuesCountTheirOwn, SpawnsGoLast, DespawnSwapsTheLastIn, DespawnOfTheLastRow, MovesGoLast, EqualValueIsAWrite, RecursiveDespawnComesBack, DeadArePassedOver, ParentsInOrder, ResourcesKeepAdded, RefusalsOfTheWorld, RefusalsOfSpawn, RefusedFramesLeaveNothing, RetiredForGood, LastTickRefuses, RewindsTellOldCursors, DepthKeepsTheNewest};

/// The definitions of commands, frames, undo and redo compute these short lists of calls: the replies, and the
/// whole worlds after them.
pub fn worked_examples_hold()
    ensures nothing { NothingToTakeBack }
    ensures spawn { SpawnComesAndGoes }
    ensures redo { NewFrameEmptiesRedo }
    ensures empty { EmptyFramesCount }
    ensures queues { QueuesCountTheirOwn }
    ensures spawns { SpawnsGoLast }
    ensures despawn { DespawnSwapsTheLastIn }
    ensures last_row { DespawnOfTheLastRow }
    ensures moves { MovesGoLast }
    ensures equal_value { EqualValueIsAWrite }
    ensures recursive_despawn { RecursiveDespawnComesBack }
    ensures dead { DeadArePassedOver }
    ensures parents { ParentsInOrder }
    ensures resources { ResourcesKeepAdded }
    ensures refusals { RefusalsOfTheWorld }
    ensures spawn_refusals { RefusalsOfSpawn }
    ensures whole_frames { RefusedFramesLeaveNothing }
    ensures retirement { RetiredForGood }
    ensures last_tick { LastTickRefuses }
    ensures cursors { RewindsTellOldCursors }
    ensures depth { DepthKeepsTheNewest }
{}
