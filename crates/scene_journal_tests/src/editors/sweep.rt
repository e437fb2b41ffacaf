//! A kind of frame that reads the world before it changes it.
ghost use Rattle.std.specs.Prelude.{◌≡◌, IfOk, OnErr};
ghost use Rattle.scene_kinds.specs.Answers.{Answers};
ghost use Rattle.scene_model.specs.Perform.{perform};
ghost use Rattle.scene_machine.specs.Frame.{framed};
ghost use Rattle.scene_machine.specs.Machine.{submitted};
ghost use Rattle.scene_world.specs.Stage.{act};
ghost use Rattle.scene_undo.specs.Editor.{entities_of, machine_of};
ghost use Rattle.scene_journal_tests.specs.Sweep.{swept};

use scene_kinds::{Entity, Refusal};
use scene_undo::{Editor, Made};
use scene_world::{Frame, Stage};
use std::alloc::Global;

/// An entity goes with all below it, if it is alive; else nothing is done. It spawns nothing.
#[derive(Clone, Copy)]
pub struct Sweep(pub Entity);

impl Frame for Sweep {
    ghost use Rattle.std.specs.Prelude.{⊤};

    ghost can = { λ f. ⊤ };

    ghost does = { λ f w. swept perform f.0 w };

    ghost plays = { λ note f s. swept (act note) f.0 s };

    fn run<S: Stage>(&self, alloc: Global, stage: &mut S) -> Result<Vec<Entity>, Refusal> {
        if !stage.world().is_alive(self.0) {
            return Ok(Vec::new(alloc));
        }
        stage.despawn_recursive(self.0)?;
        Ok(Vec::new(alloc))
    }
}

/// Does a sweep as a frame of an editor: it raises the tick, and is one step of the machine of saved worlds.
///
/// Refused, and then the editor is as it was: `TickFull`; `NoMemory`.
pub fn sweep_away(editor: &mut Editor, entity: Entity) -> Result<Made, Refusal>
    ensures machine { Answers (entities_of result) (machine_of editor.old) (machine_of editor.new)
        (submitted (machine_of editor.old) (framed (swept perform entity) editor.old.world)) }
    ensures copy { IfOk result (λ m. m.copy.items ≡ m.entities.items) }
    ensures same { OnErr result (editor.new ≡ editor.old) }
{
    editor.run(&Sweep(entity))
}
