//! The calls of C that play systems; `scene_request` and `scene_line` add one.
ghost use Rattle.scene_script.specs.declared.script_line.Line.TheVariants as line;
ghost use Rattle.scene_c.specs.Calls.{Does, Plays, says};

use crate::handle::Handle;
use crate::held::{say, tell};
use scene_script::Line;
use std::alloc::Global;

/// Begins a phase behind those that there are, as the line `phase` does: systems that are added next go into it.
#[unsafe(no_mangle)]
pub extern "C" fn scene_phase(alloc: Global, scene: &mut Handle) -> u32
    ensures { Does line.Phase scene.old.value scene.new.value result }
{
    say(alloc, scene, Line::Phase)
}

/// Takes all systems away, as the line `clear` does.
#[unsafe(no_mangle)]
pub extern "C" fn scene_clear_systems(alloc: Global, scene: &mut Handle) -> u32
    ensures { Does line.Clear scene.old.value scene.new.value result }
{
    say(alloc, scene, Line::Clear)
}

/// Plays all systems once, as the line `advance` does: a frame, all or nothing. Its answer is kept with its text.
#[unsafe(no_mangle)]
pub extern "C" fn scene_advance(alloc: Global, scene: &mut Handle) -> u32
    ensures { Plays (says line.Advance) (λ r. r.text) scene.old.value scene.new.value result }
{
    tell(alloc, scene, Line::Advance)
}
