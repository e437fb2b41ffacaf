//! Rows that move to the table of another kind set. All growth comes before the first change that is seen.
ghost use Rattle.std.specs.Prelude.{◌≡◌, ◌<◌, ◌≤◌, Some, OnOk, OnErr, IfOk, true};
ghost use Rattle.scene_kinds.specs.Cells.{HasKinds, AreKindsBelow, cell_of, without_cell};
ghost use Rattle.scene_kinds.specs.KindSet.{has_kind};
ghost use Rattle.scene_kinds.specs.declared.cells.Row.{Row};
ghost use Rattle.scene_table.specs.Table.{cell_at};
ghost use Rattle.scene_table.specs.Tables.{rows_at, row_at};
ghost use Rattle.scene_table.specs.Tables.{without_row, with_row_back, row_for};
ghost use Rattle.scene_model.specs.Commands.{after_move, after_insert};
ghost use Rattle.scene_model.specs.Raw.{shifted};
ghost use Rattle.scene_world.specs.Moves.{MayMove, moved_mask};
ghost use Rattle.scene_archetypes.specs.KindTables.{IsWider, IsWithin};
ghost use Rattle.scene_table.specs.Tables.{StandsIn};
ghost use Rattle.std.specs.Option.{option_map};

use scene_archetypes::Archetypes;
use scene_kinds::{Cell, Entity, KindSet, Value, set_with, set_without};
use scene_table::Home;
use std::alloc::AllocError;

/// The added tick of the cell of a kind in the row at a home, or `None` where the row doesn't have that kind.
fn added_at(tables: &Archetypes, home: Home, kind: u8) -> Option<u64>
    requires { IsWithin tables.now.tables home }
    ensures { result ≡ option_map (λ cell. cell.added) (cell_at (rows_at tables.now.tables home.mask) home.place kind) }
{
    let cell = tables.cell(home, kind)?;
    Some(cell.added)
}

/// Inserts a component into the row of an entity, which stands at a home: in its place where the kind is there, whose
/// old cell it gives, else by a move.
pub(crate) fn insert_at(
    tables: &mut Archetypes,
    entity: Entity,
    home: Home,
    tick: u64,
    kind: u8,
    value: Value,
) -> Result<Option<Cell>, AllocError>
    requires stands { StandsIn tables.old.tables entity home }
    requires kinds { (row : Row) → row_at tables.old.tables home ≡ Some row → HasKinds home.mask row }
    requires low { kind < 64 }
    ensures ok { OnOk result ((row : Row) → row_at tables.old.tables home ≡ Some row
        → tables.new.tables ≡ after_insert tick tables.old.tables home row kind value (cell_of row.cells kind)) }
    ensures before { IfOk result (λ before. before ≡ cell_at (rows_at tables.old.tables home.mask) home.place kind) }
    ensures err { OnErr result (tables.new.tables ≡ tables.old.tables) }
    ensures wide { IsWider tables.old.rooms tables.new.rooms }
    ensures homes { tables.old.homes ≤ tables.new.homes }
{
    match added_at(tables, home, kind) {
        Some(added) => {
            let changed = tick;
            let cell = Cell {
                value,
                added,
                changed,
            };
            Ok(Some(tables.set_cell(home, kind, cell)))
        }
        None => {
            let target = set_with(home.mask, kind);
            tables.reserve(target, 0)?;
            let last = tables.len(target);
            tables.move_with(entity, home, last, kind, Cell::new(value, tick));
            Ok(None)
        }
    }
}

/// Removes the component of a kind that is there from the row of an entity, which stands at a home, by a move, and gives
/// its cell.
pub(crate) fn remove_at(
    tables: &mut Archetypes,
    entity: Entity,
    home: Home,
    kind: u8,
) -> Result<Cell, AllocError>
    requires stands { StandsIn tables.old.tables entity home }
    requires kinds { (row : Row) → row_at tables.old.tables home ≡ Some row → HasKinds home.mask row × AreKindsBelow 64 row.cells }
    requires there { has_kind home.mask kind ≡ true }
    requires low { kind < 64 }
    ensures ok { OnOk result ((row : Row) → row_at tables.old.tables home ≡ Some row
        → tables.new.tables ≡ after_move tables.old.tables home row (without_cell row.cells kind)) }
    ensures cell { IfOk result (λ cell. cell_at (rows_at tables.old.tables home.mask) home.place kind ≡ Some cell) }
    ensures err { OnErr result (tables.new.tables ≡ tables.old.tables) }
    ensures wide { IsWider tables.old.rooms tables.new.rooms }
    ensures homes { tables.old.homes ≤ tables.new.homes }
{
    prove!(home.mask <= u64::MAX);
    let target = set_without(home.mask, kind);
    tables.reserve(target, 0)?;
    let last = tables.len(target);
    Ok(tables.move_without(entity, home, last, kind))
}

/// The kind set with one kind more, or, not `inward`, without it.
pub(crate) fn moved_mask(mask: KindSet, kind: u8, inward: bool) -> KindSet
    requires { kind < 64 }
    ensures { result ≡ moved_mask mask kind inward }
{
    if inward {
        set_with(mask, kind)
    } else {
        set_without(mask, kind)
    }
}

/// Moves the row of an entity, which stands at a home, to a place of the table with one kind more, with this cell, or,
/// not `inward`, to the one without the kind. It takes no memory.
pub(crate) fn move_row(
    tables: &mut Archetypes,
    entity: Entity,
    home: Home,
    place: usize,
    kind: u8,
    cell: Cell,
    inward: bool,
)
    requires stands { StandsIn tables.old.tables entity home }
    requires low { kind < 64 }
    requires moves { (row : Row) → row_at tables.old.tables home ≡ Some row → MayMove tables.old home place kind cell inward row }
    ensures tables { (row : Row) → row_at tables.old.tables home ≡ Some row
        → tables.new.tables ≡ with_row_back (without_row tables.old.tables home) place (row_for row.entity (shifted row.cells kind cell inward)) }
    ensures rooms { tables.new.rooms ≡ tables.old.rooms }
    ensures homes { tables.new.homes ≡ tables.old.homes }
{
    if inward {
        tables.move_with(entity, home, place, kind, cell);
    } else {
        let _cell = tables.move_without(entity, home, place, kind);
    }
}
