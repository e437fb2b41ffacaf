//! Passes over a world: calls that read the rows of the archetypes that a filter matches, and change nothing.
//!
//! A `Filter` says which kind sets match. `matching` lists the entities of the matching rows, and `rows` copies the
//! rows; `changed_since` and `added_since` list the cells of those rows that were changed or added after a tick. Rows
//! come by ascending kind set, and in a table by place; the cells of a row by kind. A pass costs the number of kind
//! sets times its logarithm, and the matching rows; where it lists cells, of these only the tables that may have such
//! a cell, and in them a comparison for each row and each kind that may.
//!
//! `map_rows` and `map_rows_alone` answer what the writing steps of a system make of each matching row, and
//! `first_fault` the first sum among these that doesn't fit. The first parts large tables among threads, and answers
//! what the second does.
//!
//! `specs/Filter.antt` of scene_systems says what a filter matches, `specs/Pass.antt` what each pass lists, and
//! `specs/Changes.antt` what row steps make of rows. `worked_passes` and `worked_changes` have those definitions
//! compute over a small world and a row. Of the laws, `filters_say_each_kind` has the meaning of a filter kind by kind,
//! and `passes_list_just_what_matches` that of the lists in the words of a world's readers.
#![tactic(auto)]

mod cell_name;
mod cells;
mod change;
mod changed_rows;
mod entities;
mod fault;
mod laws;
mod lone;
mod row_change;
mod row_copies;
mod row_in_place;
mod sums;
mod tables;
mod written;

pub use cell_name::CellName;
pub use cells::{added_since, changed_since};
pub use changed_rows::{PARTED_ROWS, first_fault_in, map_rows, map_rows_alone};
pub use entities::matching;
pub use fault::first_fault;
pub use laws::{passes_list_just_what_matches, worked_changes, worked_passes};
pub use row_change::{Outcome, RowChange};
pub use row_copies::rows;
pub use scene_systems::{Filter, RowStep};
pub use tables::matching_tables;
