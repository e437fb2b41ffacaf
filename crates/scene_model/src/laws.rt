//! Laws of the commands. Every `World` is valid by its type; these say of the definitions that they keep it so.
ghost use Rattle.scene_model.specs.Laws.{RaiseKeeps, CommandsKeep, DespawnRecursiveIsWhole};

/// A law of all commands: an accepted one, given values that their types can hold, keeps a valid world valid. So does
/// raising the tick (docs/MODEL.md, "A valid world").
pub fn commands_keep_worlds_valid()
    ensures commands { CommandsKeep }
    ensures raise { RaiseKeeps }
{}

/// A law: in a valid world a recursive despawn of a live entity is accepted; no despawn on the way is refused
/// (docs/MODEL.md, "The rule of recursive despawn").
pub fn recursive_despawn_is_never_refused_midway()
    ensures { DespawnRecursiveIsWhole }
{}
