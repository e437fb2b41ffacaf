//! A table of a scene's world: the rows of one archetype, in order.
//!
//! All rows of a table have just the table's kinds. A new row goes last; a row that leaves is
//! replaced by the last one. The rows stand in columns: the entities, and for each kind the values,
//! the added ticks and the changed ticks. Contracts see the kind set, the list of rows, and the
//! capacity: for how many rows there is memory in all columns.
//!
//! `Home` names a row among the tables of all kind sets; specs/Tables.antt says what is read of those and how they
//! change.
//!
//! A `Run` is what row steps make of all rows of a table, turn after turn, and `Written` one turn of it, whose cells are
//! written by columns at once. Its laws, as `turn_is_cells`, say that this is what they make one after another.
//! A `ColumnWriter` writes their values: the calling thread, or several where a column is large.
//!
//! Only `reserve`, and `push_row` and `unswap` by it, take memory for rows, and nothing gives it
//! back, so that a change can be undone without a refusal: each call that changes a table says what
//! capacity it leaves, and each by which a row leaves, that there is room for it to come back.
#![tactic(auto)]

mod changed;
mod column;
mod columns;
mod entities;
mod grown;
mod home;
mod plain;
mod reach;
mod row_cells;
mod row_step;
mod rows;
mod run;
mod run_laws;
mod series;
mod since;
mod sums;
mod table;
mod ticks;
mod writer;
mod written;

pub use changed::ChangedTicks;
pub use column::ColumnRef;
pub use grown::Grown;
pub use home::Home;
pub use plain::{has_text, is_text, plain_cell};
pub use row_cells::RowCells;
pub use row_step::RowStep;
pub use rows::{put_back_comes_back, swap_out_comes_back};
pub use run::{Run, are_apart};
pub use run_laws::{cells_are_rows, run_goes_on, runs_stay_live, turn_is_cells};
pub use since::Since;
pub use table::Table;
pub use writer::{ColumnWriter, PARTED_VALUES, WritesAlone, WritesShared};
pub use written::{Written, WrittenCell, changed_ticks};
