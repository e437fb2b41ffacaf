//! What a script has come to between two lines after the setup.
ghost use Rattle.std.specs.Prelude.{◌≡◌};
ghost use Rattle.scene_interpreter.specs.Play.{opening_state, state_by};

use crate::open_frame::OpenFrame;
use crate::phases::Phases;
use scene_kinds::Schema;
use scene_session::SessionOwner;
use scene_undo::Cursor;
use std::alloc::Global;

/// The sessions of the state, the kinds of its world, the cursor that the last mark took, the frame that is open, and
/// the phases of systems.
#[derive(Drop)]
pub(crate) struct PlayState<O> {
    pub(crate) owner: O,
    pub(crate) schema: Schema,
    pub(crate) cursor: Cursor,
    pub(crate) frame: Option<OpenFrame>,
    pub(crate) phases: Phases,
}

impl<O: SessionOwner> PlayState<O> {
    /// The state in which a run begins: no frame, no phases, and the cursor from before the first mark. It takes no
    /// memory.
    pub(crate) fn new(alloc: Global, owner: O, schema: Schema) -> Self
        ensures { state_by O.state result ≡ opening_state (O.state owner) schema }
    {
        PlayState {
            owner,
            schema,
            cursor: Cursor {
                rewinds: 0,
                tick: 0,
            },
            frame: None,
            phases: Phases::new(alloc),
        }
    }
}
