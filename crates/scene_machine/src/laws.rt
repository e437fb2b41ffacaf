//! The law of frames. Every `World` is valid by its type; this says of the definition of a frame that it keeps it so.
ghost use Rattle.scene_machine.specs.Laws.{FramesKeep};

/// A law of frames: an accepted one, whose commands give values that their types can hold, keeps a valid world valid.
pub fn frames_keep_worlds_valid()
    ensures { FramesKeep }
{}
