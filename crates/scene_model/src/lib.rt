//! What a world is: its definition as one value, what is valid, its commands, and the raw changes of which they are
//! made. There is no code here, but for the functions whose contracts say the laws.
//!
//! `specs/World.antt` says what a world is and what its readers answer, `specs/Commands.antt` what the nine commands
//! do, `specs/Perform.antt` has them as one type, and `specs/Valid.antt` the ten rules of a valid world. `laws` says of
//! all commands that an accepted one keeps a valid world valid. Frames of commands, undo and redo are in the crate
//! `scene_machine`.
//!
//! `specs/Raw.antt` has the raw changes, `specs/Can.antt` where each may be made, and `raw_laws` says that each keeps a
//! valid world valid and is taken back exactly.
#![tactic(auto)]

mod laws;
mod raw_laws;

pub use laws::{commands_keep_worlds_valid, recursive_despawn_is_never_refused_midway};
pub use raw_laws::{
    cells_come_back, commands_are_raw_changes, cut_rows_come_back, links_come_back,
    recursive_despawn_comes_back, resource_commands_are_raw_changes, resources_come_back,
    rows_come_back, runs_are_cells, shifted_rows_come_back,
};
