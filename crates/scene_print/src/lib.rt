//! How what is in a world prints, as text (docs/SCRIPTS.md, "Output") and as JSON (docs/SHELL.md, "JSON").
//!
//! Each function adds to a text, and what it adds is one definition: `specs/Printed.antt` has values, cells, rows and
//! refusals, `specs/Shown.antt` worlds as the lines of `show`, `specs/Listed.antt` lists of cells.
//! `specs/JsonShown.antt` has worlds and their parts as JSON, `specs/JsonAsked.antt` what is asked of parts of a world,
//! and `specs/JsonTold.antt` refusals and the faults of scene texts; values and cells are written there as in scene
//! texts, by scene_json_forms.
#![tactic(auto)]

mod json_asked;
mod json_listed;
mod json_page;
mod json_refused;
mod json_rows;
mod json_world;
mod kind_texts;
mod listed;
mod show;
mod ticks;
mod values;

pub use json_asked::{
    write_json_children, write_json_parent, write_json_resources, write_json_tables,
};
pub use json_listed::write_json_listed;
pub use json_page::write_json_rows;
pub use json_refused::{write_json_fault, write_json_refused};
pub use json_rows::write_json_row;
pub use json_world::write_json_world;
pub use listed::write_listed;
pub use show::{write_entities, write_row, write_show};
pub use values::{write_cell, write_refusal, write_row_cell, write_row_head, write_value};
