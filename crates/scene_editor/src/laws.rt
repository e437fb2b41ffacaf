//! The laws of changes, of frames and of machines.
ghost use Rattle.scene_editor.specs.Laws.{FramesGoOn, MachinesGoOn};

/// A law of frames: the world after an accepted one goes on from the world before it. Each of its cells was changed, or
/// added, after the tick of that world, or was there.
pub fn frames_go_on()
    ensures { FramesGoOn }
{}

/// A law of calls of the machine of saved worlds: each of its worlds goes on from the one before it, and so does the
/// world after calls from the world before them, unless an undo raised the count of rewinds (docs/SESSIONS.md, "What it
/// has seen").
pub fn machines_go_on()
    ensures { MachinesGoOn }
{}
