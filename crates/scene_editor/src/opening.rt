//! States of which the law speaks.
ghost use Rattle.std.specs.Prelude.{◌≡◌, ◌≤◌, []};
ghost use Rattle.scene_machine.specs.Machine.{most_frames};
ghost use Rattle.scene_undo.specs.Editor.{new_editor};
ghost use Rattle.scene_editor.specs.Since.{IsNew};

use scene_session::State;
use scene_undo::Editor;
use scene_world::World;
use std::alloc::Global;

/// A state of a new editor of this world, whose history is empty and may have at most `limit` entries, 1 to 1,048,576.
/// The lists that it answers tell two worlds apart (docs/SESSIONS.md, "What it has seen"). It takes no memory.
pub fn new_state(alloc: Global, world: World, limit: u32) -> State
    requires { (1 ≤ limit) × (limit ≤ 1048576) }
    ensures state { result ≡ record { opening = record { editor = new_editor world.world most_frames; limit = limit }; history = [] } }
    ensures new { IsNew result.opening.editor }
{
    State::new(alloc, Editor::new(alloc, world), limit)
}
