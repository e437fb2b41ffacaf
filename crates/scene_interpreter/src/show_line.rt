//! `show` of a world that no lock is over, told without a text of its own.
ghost use Rattle.std.specs.Prelude.{◌≡◌, IfSome};
ghost use Rattle.scene_print.specs.Shown.{show_text};
ghost use Rattle.scene_script.specs.declared.script_line.Line.TheVariants.{Show};
ghost use Rattle.scene_interpreter.specs.Interpreter.{interpreter_kinds, interpreter_said, reached, reply_of};
ghost use Rattle.scene_interpreter.specs.Play.{line_reply, query_reply, state_by};
ghost use Rattle.scene_interpreter.specs.Said.{Text};

use crate::interpreter::{Interpreter, Mode};
use crate::play_state::PlayState;
use crate::script_owner::ScriptOwner;
use scene_script::{BadLine, Line};
use scene_world::World;

/// The world that `show` tells in this state, where no frame is open and no lock is over the world.
fn world_in<O: ScriptOwner>(state: &PlayState<O>) -> Option<&World>
    ensures { IfSome result (λ world. line_reply (state_by O.state state.now) Show
        ≡ query_reply (state_by O.state state.now) (Text (show_text world.now.world))) }
{
    if state.frame.is_some() {
        return None;
    }
    match state.owner.lone_editor() {
        Some(editor) => Some(editor.world()),
        None => None,
    }
}

impl<O: ScriptOwner> Interpreter<O> {
    /// The world that a line tells, where it is `show` behind the setup, no frame is open and no lock is over the
    /// world: the line's text is then that of this world, and nothing changes.
    // So the text goes where it is wanted at once. Elsewhere it is made under the lock, and copied.
    pub(crate) fn shown_world(&self, said: &Result<Line, BadLine>) -> Option<&World>
        ensures { IfSome result (λ world. interpreter_said (reached O.state O.most self.now) said.now
            ≡ reply_of (interpreter_kinds (reached O.state O.most self.now)) (Text (show_text world.now.world)) (reached O.state O.most self.now)) }
    {
        let Ok(Line::Show) = said else {
            return None;
        };
        match &self.mode {
            Mode::Setting(_) => None,
            Mode::Playing(state) => world_in(state),
        }
    }
}
