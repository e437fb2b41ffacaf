//! What the setup of a script has come to.
ghost use Rattle.std.specs.Prelude.{◌≡◌, IfErr, IfOk};
ghost use Rattle.scene_interpreter.specs.Play.{first_editor, first_owner, first_setup, first_state, setup_kinds, state_by};
ghost use Rattle.scene_interpreter.specs.Interpreter.{HaltsSetup};
ghost use Rattle.scene_interpreter.specs.Setup.{base_of, setup_by, without_base};

use crate::halt::Halt;
use crate::play_state::PlayState;
use crate::script_owner::ScriptOwner;
use scene_kinds::Schema;
use scene_script::Limit;
use scene_undo::Editor;
use scene_world::World;
use std::alloc::{AllocError, Global};
use std::mem;

/// With what the run begins.
#[derive(Drop)]
pub(crate) enum Base {
    /// The kinds and the slot limit so far.
    Declared(Schema, Limit),
    /// The editor of the scene text that was loaded last.
    Loaded(Editor),
}

impl Base {
    /// The editor with which the run begins, of a depth: of a world without entities, or the loaded one. It takes no
    /// memory.
    fn into_editor(self, alloc: Global, depth: u32) -> Editor
        ensures { result ≡ first_editor (base_of self) depth }
    {
        match self {
            Base::Declared(schema, limit) => {
                let world = World::new(alloc, schema, limit.get());
                Editor::with_depth(alloc, world, depth)
            }
            Base::Loaded(editor) => {
                let mut cut = editor;
                cut.set_depth(depth);
                cut
            }
        }
    }
}

/// The setup of a script between two lines (docs/SCRIPTS.md, "Setup"), with the number of calls that there may be, and
/// of frames that can be undone.
#[derive(Drop)]
pub(crate) struct Setup<O: ScriptOwner> {
    pub(crate) base: Base,
    pub(crate) calls: O::CallLimit,
    pub(crate) depth: Limit,
}

impl<O: ScriptOwner> Setup<O> {
    /// The setup before the first line: no kinds, and the greatest limits that lines can set. It takes no memory.
    pub(crate) fn new(alloc: Global) -> Self
        ensures { setup_by O.most result ≡ first_setup }
    {
        Setup {
            base: Base::Declared(Schema::new(alloc), Limit::most()),
            calls: O::limit_to(Limit::most()),
            depth: Limit::most(),
        }
    }

    /// The kinds so far.
    pub(crate) fn schema(&self) -> &Schema
        ensures { result.now ≡ setup_kinds (setup_by O.most self.now) }
    {
        match &self.base {
            Base::Declared(schema, _) => schema,
            Base::Loaded(editor) => editor.world().schema(),
        }
    }

    /// The owner with which the run begins. It leaves a setup without kinds, also where no memory is found.
    pub(crate) fn take_owner(&mut self, alloc: Global) -> Result<O, AllocError>
        ensures owner { IfOk result (λ owner. O.state owner ≡ first_owner (setup_by O.most self.old)) }
        ensures left { setup_by O.most self.new ≡ without_base (setup_by O.most self.old) }
    {
        let base = mem::replace(
            &mut self.base,
            Base::Declared(Schema::new(alloc), Limit::most()),
        );
        let editor = base.into_editor(alloc, self.depth.get());
        O::open(alloc, editor, &self.calls)
    }

    /// The state in which the run begins. It leaves a setup without kinds.
    pub(crate) fn begin(&mut self, alloc: Global) -> Result<PlayState<O>, Halt>
        ensures state { IfOk result (λ state. state_by O.state state ≡ first_state (setup_by O.most self.old)) }
        ensures halted { IfErr result (λ h. HaltsSetup h (setup_by O.most self.old) (setup_by O.most self.new)) }
    {
        let Ok(schema) = self.schema().try_clone() else {
            return Err(Halt::Before);
        };
        match self.take_owner(alloc) {
            Ok(owner) => Ok(PlayState::new(alloc, owner, schema)),
            Err(AllocError) => Err(Halt::Lost),
        }
    }
}
