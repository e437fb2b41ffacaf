//! What frames are, and what undo and redo are: the machine of saved worlds. There is no code here, but for the
//! functions whose contracts say the laws.
//!
//! `specs/Queue.antt` has a queue of commands as a fold, over a world or over whatever else commands can be performed
//! on, and `specs/Frame.antt` a frame: the tick is raised, and then its queues are done, all or nothing.
//! `specs/Machine.antt` keeps the whole worlds before each frame, and those that were undone; the total `step` of a
//! call on that machine is in `specs/Frame.antt` too.
//!
//! `worked_examples_hold` has these definitions, and those of the commands, compute short scripts.
//! `frames_keep_worlds_valid` says that an accepted frame keeps a valid world valid. What a world is stands in the
//! crate `scene_model`: it and the world in code know of no frame, so a change to frames proves nothing of them again.
#![tactic(auto)]

mod examples;
mod laws;

pub use examples::worked_examples_hold;
pub use laws::frames_keep_worlds_valid;
