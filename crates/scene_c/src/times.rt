//! Undos and redos of several frames by one call.
ghost use Rattle.std.specs.Prelude.{◌≡◌, ◌≢◌, [], IfErr, OnOk, string_bytes};
ghost use Rattle.scene_interpreter.specs.Interpreter.{Tells, interpreter_of};
ghost use Rattle.scene_interpreter.specs.Turns.{turn_said};
ghost use Rattle.scene_interpreter.specs.declared.halt.Halt.TheVariants.{After};
ghost use Rattle.scene_c.specs.Calls.{Played};
ghost use Rattle.scene_c.specs.OpenScene.{HasHalted};

use crate::open_scene::OpenScene;
use crate::played::code_of;
use scene_interpreter::Halt;
use scene_session::Way;

impl OpenScene {
    /// Goes so many frames along a way, all or none, and keeps the answer without a text.
    ///
    /// Halted as `Interpreter::turn_by` is, so never behind the frames: then the last answer stays.
    #[tactic(auto, using(crate::proofs::OpenSceneLaws::has_halted))]
    pub fn turn_by(&mut self, way: Way, count: usize) -> Result<(), Halt>
        ensures answer { OnOk result (Tells self.new.answer (interpreter_of self.new.interpreter)
            (turn_said (interpreter_of self.old.interpreter) way count)) }
        ensures text { OnOk result (string_bytes self.new.text ≡ []) }
        ensures halted { IfErr result (λ h. HasHalted h self.old self.new (turn_said (interpreter_of self.old.interpreter) way count)) }
        ensures undone { IfErr result (λ h. h ≢ After) }
        ensures cells { self.new.cells.items ≡ self.old.cells.items }
    {
        self.answer = self.interpreter.turn_by(way, count)?;
        self.text.clear();
        Ok(())
    }
}

/// Goes so many frames along a way, or none.
pub(crate) fn turn_at(open_scene: &mut OpenScene, way: Way, count: usize) -> u32
    ensures played { Played open_scene.old open_scene.new (turn_said (interpreter_of open_scene.old.interpreter) way count) [] result }
    ensures told { result ≢ 5 }
    ensures cells { open_scene.new.cells.items ≡ open_scene.old.cells.items }
{
    let came = open_scene.turn_by(way, count);
    code_of(came, open_scene.answer())
}
