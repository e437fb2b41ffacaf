//! Laws of the raw changes of a world: where one may be made, it keeps the world valid and is taken back exactly. What
//! is noted of a change, so that it can be undone and done again, rests on them.
ghost use Rattle.scene_model.specs.CommandRaw.{SpawnPuts, DespawnCuts, InsertShiftsOrSets, RemoveShifts, SetParentSetsLink, RemoveParentSetsLink, PutSetsResource, RemoveSetsResource, RaiseSetsTick};
ghost use Rattle.scene_model.specs.RawLists.{CutListsComeBack, DespawnRecursiveCuts};
ghost use Rattle.scene_model.specs.RunRaw.{RunsAreCells, RunsKeep, StandingRunsCanBePut};
ghost use Rattle.scene_model.specs.RawLaws.{CellsComeBack, CutRowsComeBack, LinksComeBack, ResourcesComeBack, RowsComeBack, ShiftedRowsComeBack, TicksComeBack};

/// A law: a resource that is set to a cell or to none, and the tick, come back by being set to what they were. Both
/// keep a valid world valid.
pub fn resources_come_back()
    ensures resources { ResourcesComeBack }
    ensures ticks { TicksComeBack }
{}

/// A law: a cell of a live entity that is set, in its place and with any ticks, comes back by being set to what it was.
/// It keeps a valid world valid.
pub fn cells_come_back()
    ensures { CellsComeBack }
{}

/// A law: the cells that a run wrote, set one after another, are the rows of its table written at once. They keep a valid
/// world valid. A run that stands in its table may be written there after more turns.
pub fn runs_are_cells()
    ensures cells { RunsAreCells }
    ensures keeps { RunsKeep }
    ensures standing { StandingRunsCanBePut }
{}

/// A law: a link of a live entity that is set, to a place in a parent's list or to none, comes back by being set to
/// what it was, with every other child in its place. It keeps a valid world valid.
pub fn links_come_back()
    ensures { LinksComeBack }
{}

/// A law: a row that is put last in its table, with the slot of its entity, comes back by leaving it, and the last row
/// of a table that leaves it comes back by being put there. Both keep a valid world valid.
pub fn rows_come_back()
    ensures { RowsComeBack }
{}

/// A law: a row that leaves its table as at a despawn comes back to its place, with its slot and its link, and one that
/// came back so leaves again as it had left. Both keep a valid world valid.
pub fn cut_rows_come_back()
    ensures { CutRowsComeBack }
{}

/// A law: a row that moves to another table, with one kind more or less, comes back to its place with the cells that
/// it had, and one that moved back moves on as it had moved. Both keep a valid world valid.
pub fn shifted_rows_come_back()
    ensures { ShiftedRowsComeBack }
{}

/// A law of the commands on one entity: one that a valid world accepts is a raw change that may be made there, with the
/// row, the place, the cell or the link that the world had.
pub fn commands_are_raw_changes()
    ensures spawn { SpawnPuts }
    ensures despawn { DespawnCuts }
    ensures insert { InsertShiftsOrSets }
    ensures remove { RemoveShifts }
    ensures set_parent { SetParentSetsLink }
    ensures remove_parent { RemoveParentSetsLink }
{}

/// A law of the commands on resources, and of raising the tick: an accepted one, with a value that its type can hold,
/// is a raw change that may be made.
pub fn resource_commands_are_raw_changes()
    ensures put { PutSetsResource }
    ensures remove { RemoveSetsResource }
    ensures raise { RaiseSetsTick }
{}

/// A law of a recursive despawn: it cuts the rows of the entity and of those below it one after another, children
/// first, and rows that were cut one after another come back from the last to the first.
pub fn recursive_despawn_comes_back()
    ensures cuts { DespawnRecursiveCuts }
    ensures back { CutListsComeBack }
{}
