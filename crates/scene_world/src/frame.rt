//! What is done to a world at once, all or nothing, whatever kind of work it is.
ghost use Rattle.std.specs.Prelude.{◌≡◌, ◌≢◌, List, Ok, Err, IfOk, IfErr};
ghost use Rattle.scene_kinds.specs.Answers.{Outcome, refusal_of};
ghost use Rattle.scene_kinds.specs.declared.entity.Entity.{Entity as Spawned};
ghost use Rattle.scene_kinds.specs.declared.fault.Fault.TheVariants.{NoMemory};
ghost use Rattle.scene_model.specs.World.{World as Whole};
ghost use Rattle.scene_world.specs.Room.{IsWider};
ghost use Rattle.scene_world.specs.Stage.{Staged, Note as NoteOf};

use crate::stage::Stage;
use scene_kinds::{Entity, Refusal};
use std::alloc::Global;

/// What a frame does to a world, all or nothing: a list of queues, or any other work that is made of commands
/// (docs/MODEL.md, "The rule of frames").
///
/// A frame is run on a `Stage`, so that one body serves a plain world and a recorder, and it may read the world on the
/// way. An editor takes any kind: it raises the tick before, keeps what its recorder noted, and takes a refused frame
/// back.
pub trait Frame {
    // Which frames can be run.
    ghost can: { Self → Type 0 };

    // What it does to a world whose tick is raised: the entities that it spawns, in order, and the world after it, or
    // its first refusal.
    ghost does: { Self → Whole → Outcome (List Spawned) Whole };

    // How it goes on a stage, by what the stage notes of a command.
    ghost plays: { {N : Type 0} → NoteOf N → Self → Staged N → Outcome (List Spawned) (Staged N) };

    /// Does it on a stage, and gives the entities that it spawned, in order.
    ///
    /// Refused: its first refusal; `NoMemory`. After a refusal the stage is somewhere on the way; the world to which it
    /// can be taken back is the same as before, and no room is lost.
    fn run<S: Stage>(&self, alloc: Global, stage: &mut S) -> Result<Vec<Entity>, Refusal>
        requires { can self.now }
        ensures noted { IfOk result (λ es. plays S.note self.now (S.seen stage.old) ≡ Ok (es.items, S.seen stage.new)) }
        ensures world { IfOk result (λ es. does self.now (S.seen stage.old).world ≡ Ok (es.items, (S.seen stage.new).world)) }
        ensures refused { IfErr result (λ r. r ≢ refusal_of NoMemory → does self.now (S.seen stage.old).world ≡ Err r) }
        ensures opening { S.opening stage.new ≡ S.opening stage.old }
        ensures wide { IsWider (S.room stage.old) (S.room stage.new) };
}
