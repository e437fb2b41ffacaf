//! The queries that are given.
use crate::query::EditorQuery;
use scene_kinds::{Refusal, Row};
use scene_pass::{CellName, Filter, added_since, changed_since, rows};
use scene_undo::{Cursor, Editor};
use std::alloc::{AllocError, Global};

/// The rows that a filter matches, by ascending kind set, then by their places in the table (docs/MODEL.md, "The rule
/// of queries"). The answer is a copy of them, or an error where no memory was found for it.
#[derive(Clone, Copy)]
pub struct RowsOf(pub Filter);

impl EditorQuery for RowsOf {
    type Found = Result<Vec<Row>, AllocError>;

    ghost use Rattle.std.specs.Prelude.{◌≡◌, IfOk};
    ghost use Rattle.scene_pass.specs.Pass.{matching_rows};

    ghost finds = { λ q w a. IfOk a (λ rows. rows.items ≡ matching_rows w.machine.now q.0) };

    fn find(&self, alloc: Global, editor: &Editor) -> Result<Vec<Row>, AllocError> {
        rows(alloc, editor.world(), self.0)
    }
}

/// The cursor of now: how many undos there were, and the tick of the world (docs/MODEL.md, "The rule of queries"). It
/// takes no memory.
#[derive(Clone, Copy)]
pub struct CursorNow;

impl EditorQuery for CursorNow {
    type Found = Cursor;

    ghost use Rattle.std.specs.Prelude.{◌≡◌};
    ghost use Rattle.scene_undo.specs.Cursor.{cursor_of};

    ghost finds = { λ q w cursor. cursor ≡ cursor_of w.machine };

    fn find(&self, _alloc: Global, editor: &Editor) -> Cursor {
        editor.cursor()
    }
}

/// The cells of matching rows that were changed since a cursor, by row, then by kind (docs/MODEL.md, "The rule of
/// queries").
///
/// Refused: `Rewound` with the count of undos now, just where it isn't the cursor's; `NoMemory`.
#[derive(Clone, Copy)]
pub struct ChangedSince(pub Cursor, pub Filter);

impl EditorQuery for ChangedSince {
    type Found = Result<Vec<CellName>, Refusal>;

    ghost use Rattle.scene_pass.specs.Pass.{changed_since as changed_cells};
    ghost use Rattle.scene_session.specs.Queries.{ListsSince};

    ghost finds = { λ q w a. ListsSince changed_cells q.0 q.1 w.machine a };

    fn find(&self, alloc: Global, editor: &Editor) -> Result<Vec<CellName>, Refusal> {
        let tick = editor.since(self.0)?;
        Ok(changed_since(alloc, editor.world(), self.1, tick)?)
    }
}

/// The cells of matching rows that were added since a cursor, by row, then by kind (docs/MODEL.md, "The rule of
/// queries").
///
/// Refused: `Rewound` with the count of undos now, just where it isn't the cursor's; `NoMemory`.
#[derive(Clone, Copy)]
pub struct AddedSince(pub Cursor, pub Filter);

impl EditorQuery for AddedSince {
    type Found = Result<Vec<CellName>, Refusal>;

    ghost use Rattle.scene_pass.specs.Pass.{added_since as added_cells};
    ghost use Rattle.scene_session.specs.Queries.{ListsSince};

    ghost finds = { λ q w a. ListsSince added_cells q.0 q.1 w.machine a };

    fn find(&self, alloc: Global, editor: &Editor) -> Result<Vec<CellName>, Refusal> {
        let tick = editor.since(self.0)?;
        Ok(added_since(alloc, editor.world(), self.1, tick)?)
    }
}
