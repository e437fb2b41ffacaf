//! The queues of a frame as one.
ghost use Rattle.scene_machine.specs.Frame.{queues_from};
ghost use Rattle.scene_model.specs.Perform.{perform};
ghost use Rattle.scene_world.specs.Stage.{act};
ghost use Rattle.scene_queue.specs.Frames.{frame_of};

use crate::queue::{Queue, apply_all};
use scene_kinds::{Entity, Refusal};
use scene_world::{Frame, Stage};
use std::alloc::Global;

/// A frame of queues, which are applied one after another (docs/MODEL.md, "The rule of frames").
///
/// It spawns the entities of all its queues, in order. Its first refusal has the place of the command that was refused,
/// by its queue and its place in it. There may be up to 4294967295 queues, so that each has a number.
#[derive(Clone, Copy)]
pub struct Queues<'a>(pub &'a [Queue]);

impl Frame for Queues<'_> {
    ghost use Rattle.std.specs.Prelude.{◌≤◌, length};

    ghost can = { λ f. length f.0.now ≤ 4294967295 };

    ghost does = { λ f w. queues_from perform 0 (frame_of f.0.now) w };

    ghost plays = { λ note f s. queues_from (act note) 0 (frame_of f.0.now) s };

    fn run<S: Stage>(&self, alloc: Global, stage: &mut S) -> Result<Vec<Entity>, Refusal> {
        apply_all(alloc, self.0, stage)
    }
}
