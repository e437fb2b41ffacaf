//! The columns of a table, one for each of its kinds, ascending: what is done to a row is done to each column.
ghost use Rattle.std.specs.Prelude.{◌≡◌, ◌+◌, ◌<◌, ◌≤◌, ℕ, List, [], false, length, map, insert, remove, slice_get, slice_range, vec_capacity, All, Some, None, OnOk, OnErr, IfOk, IsOk, not, nat_eq, nat_lt};
ghost use Rattle.std.specs.List.{AllZip, list_any, position_from};
ghost use Rattle.std.specs.Option.{option_map};
ghost use Rattle.scene_kinds.specs.Cells.{cell_of, with_cell};
ghost use Rattle.scene_kinds.specs.declared.cell.Cell.{Cell};
ghost use Rattle.scene_table.specs.Plain.{has_text};
ghost use Rattle.scene_table.specs.Columns.{AreColumnsOf, AreLong, AreCellsAt, HasRoomAt, IsGrown, IsSameColumn, kinds_of, kinds_in, put_each, out_of_column, with_cells_of};
ghost use Rattle.scene_table.specs.Since.{is_since};
ghost use Rattle.scene_table.specs.Runs.{AreInRange, all_turned, changed_of, grown, turned};
ghost use Rattle.scene_table.specs.declared.run.RunColumn.{RunColumn};

use crate::changed::ChangedTicks;
use crate::column::Column;
use crate::plain::plain_cell;
use crate::row_cells::{RowCells, Source};
use crate::run::RunColumn;
use crate::since::Since;
use crate::writer::ColumnWriter;
use scene_kinds::{Cell, Cells, KindSet, has_kind};
use std::alloc::{AllocError, Global};

/// The columns of a kind set, without cells.
pub(crate) fn columns_of(alloc: Global, mask: KindSet) -> Result<Vec<Column>, AllocError>
    ensures kinds { IfOk result (λ columns. AreColumnsOf mask columns.items) }
    ensures empty { IfOk result (λ columns. AreLong 0 columns.items) }
{
    let mut columns = Vec::new(alloc);
    for kind in 0..64u8 {
        if has_kind(mask, kind) {
            columns.push(Column::new(alloc, kind))?;
        }
    }
    Ok(columns)
}

/// Puts the columns of a kind set, without cells, in place of others where there is no memory for rows yet. Where no
/// memory was found the others stay.
pub(crate) fn make_columns(
    alloc: Global,
    mask: KindSet,
    columns: &mut Vec<Column>,
    capacity: usize,
) -> Result<(), AllocError>
    ensures kept { 0 < capacity → columns.new.items ≡ columns.old.items }
    ensures made { capacity ≡ 0 → OnOk result (AreColumnsOf mask columns.new.items × AreLong 0 columns.new.items) }
    ensures err { OnErr result (columns.new.items ≡ columns.old.items) }
    ensures there { 0 < capacity → IsOk result }
{
    if capacity == 0 {
        *columns = columns_of(alloc, mask)?;
    }
    Ok(())
}

/// Makes room for this many more cells in each column. It fails only where that room isn't there yet and no memory
/// was found.
pub(crate) fn reserve_each(columns: &mut [Column], additional: usize) -> Result<(), AllocError>
    ensures grown { AllZip IsGrown columns.old columns.new }
    ensures room { OnOk result (All (λ column. length column.cells + additional ≤ column.capacity) columns.new) }
    ensures there { All (λ column. length column.cells + additional ≤ column.capacity) columns.old → IsOk result }
{
    for column in columns.iter_mut() {
        column.reserve(additional)?;
    }
    Ok(())
}

/// Puts the cells of a row back at a place, one in each column. It takes no memory.
#[inline(always)]
pub(crate) fn put_cells(columns: &mut [Column], at: usize, cells: Cells)
    requires count { length cells ≡ length columns.old }
    requires room { All (HasRoomAt at) columns.old }
    ensures { columns.new ≡ put_each at cells columns.old }
{
    let mut cells = cells;
    while let Some((_, cell)) = cells.pop() {
        columns[cells.len()].put_back(at, cell);
    }
}

/// Puts copies of the cells of a row back at a place, one in each column. It takes no memory, since no cell has a text.
#[inline(always)]
pub(crate) fn put_copies(columns: &mut [Column], at: usize, cells: &[(u8, Cell)])
    requires plain { has_text cells.now ≡ false }
    requires count { length cells.now ≡ length columns.old }
    requires room { All (HasRoomAt at) columns.old }
    ensures { columns.new ≡ put_each at cells.now columns.old }
{
    let mut left = cells;
    'back: while let Some((last, before)) = left.split_last() {
        columns[before.len()].put_back(at, plain_cell(&last.1));
        left = before;
    }
}

/// Puts the cells of a row back at a place, one in each column, those of its own or copies. It takes no memory.
#[inline(always)]
pub(crate) fn put_row(columns: &mut [Column], at: usize, cells: RowCells<'_>)
    requires count { length cells ≡ length columns.old }
    requires room { All (HasRoomAt at) columns.old }
    ensures { columns.new ≡ put_each at cells.entry columns.old }
{
    match cells.into_source() {
        Source::Own(cells) => put_cells(columns, at, cells),
        Source::Lent(cells) => put_copies(columns, at, cells.as_slice()),
    }
}

/// Writes what a run's column of a number has after so many turns into the column of its kind. A table that never had
/// rows may have none yet.
fn put_column<W: ColumnWriter>(
    writer: &W,
    columns: &mut [Column],
    of_run: &RunColumn,
    turns: i64,
    number: usize,
    changed: &ChangedTicks,
)
    requires range { AreInRange (grown of_run.now.series turns) }
    requires long { AreLong (length (grown of_run.now.series turns)) columns.old }
    requires ticks { length (changed_of changed.now number (length (grown of_run.now.series turns))) ≡ length (grown of_run.now.series turns) }
    ensures { columns.new ≡ with_cells_of of_run.now.kind (turned number of_run.now turns changed.now) columns.old }
{
    if let Some(at) = number_of(columns, of_run.kind) {
        columns[at].put_series(writer, &of_run.series, turns, number, changed);
    }
}

/// Writes what a run's columns have after so many turns, each into the column of its kind.
pub(crate) fn put_columns<W: ColumnWriter>(
    writer: &W,
    columns: &mut [Column],
    of_run: &[RunColumn],
    turns: i64,
    changed: &ChangedTicks,
)
    requires range { All (λ c. AreInRange (grown c.series turns)) of_run.now }
    requires long { All (λ c. AreLong (length (grown c.series turns)) columns.old) of_run.now }
    requires ticks { (number : ℕ) (c : RunColumn) → slice_get of_run.now number ≡ Some c
        → length (changed_of changed.now number (length (grown c.series turns))) ≡ length (grown c.series turns) }
    ensures { columns.new ≡ all_turned 0 of_run.now turns changed.now columns.old }
{
    for number in 0..of_run.len() {
        put_column(writer, columns, &of_run[number], turns, number, changed);
    }
}

/// Takes out the cells at a place, one of each column, and gives them with their kinds, in a list that has room for
/// them. It takes no memory.
#[inline(always)]
pub(crate) fn take_cells(
    columns: &mut [Column],
    at: usize,
    room: Vec<(u8, Cell)>,
) -> Vec<(u8, Cell)>
    requires within { All (λ column. at < length column.cells) columns.old }
    requires empty { room.items ≡ [] }
    requires fits { length columns.old ≤ vec_capacity room }
    ensures cells { AreCellsAt columns.old at result.items }
    ensures left { columns.new ≡ map (out_of_column at) columns.old }
{
    let mut cells = room;
    for column in columns.iter_mut() {
        cells.push_reserved((column.kind(), column.take(at)));
    }
    cells
}

/// Drops the cells at a place, one of each column.
#[inline(always)]
pub(crate) fn drop_cells(columns: &mut [Column], at: usize)
    requires within { All (λ column. at < length column.cells) columns.old }
    ensures left { columns.new ≡ map (out_of_column at) columns.old }
{
    for column in columns.iter_mut() {
        column.take(at);
    }
}

/// Moves the cells at a place to a place of other columns, as many, each cell to the column of the same number. It
/// takes no memory.
#[inline(always)]
pub(crate) fn move_cells(source: &mut [Column], at: usize, target: &mut [Column], to: usize)
    requires count { length target.old ≡ length source.old }
    requires within { All (λ column. at < length column.cells) source.old }
    requires room { All (HasRoomAt to) target.old }
    ensures left { source.new ≡ map (out_of_column at) source.old }
    ensures put { (cells : List (ℕ × Cell)) → AreCellsAt source.old at cells → target.new ≡ put_each to cells target.old }
{
    for i in 0..source.len() {
        source[i].move_to(at, &mut target[i], to);
    }
}

/// Moves the cells at a place to a place of other columns, of which there is one more, at a number: it gains a cell.
pub(crate) fn move_gaining(
    source: &mut [Column],
    at: usize,
    target: &mut [Column],
    to: usize,
    number: usize,
    cell: Cell,
)
    requires number { number ≤ length source.old }
    requires count { length target.old ≡ length source.old + 1 }
    requires within { All (λ column. at < length column.cells) source.old }
    requires room { All (HasRoomAt to) target.old }
    ensures left { source.new ≡ map (out_of_column at) source.old }
    ensures put { (cells : List (ℕ × Cell)) (kind : ℕ) → AreCellsAt source.old at cells
        → target.new ≡ put_each to (insert cells number (kind, cell)) target.old }
{
    let (low, high) = source.split_at_mut(number);
    let (target_low, rest) = target.split_at_mut(number);
    let (gained, target_high) = rest.split_at_mut(1);
    move_cells(low, at, target_low, to);
    gained[0].put_back(to, cell);
    move_cells(high, at, target_high, to);
}

/// Moves the cells at a place to a place of other columns, of which there is one less, but for the cell of the column
/// of a number, and gives that cell.
pub(crate) fn move_losing(
    source: &mut [Column],
    at: usize,
    target: &mut [Column],
    to: usize,
    number: usize,
) -> Cell
    requires number { number ≤ length target.old }
    requires count { length source.old ≡ length target.old + 1 }
    requires within { All (λ column. at < length column.cells) source.old }
    requires room { All (HasRoomAt to) target.old }
    ensures left { source.new ≡ map (out_of_column at) source.old }
    ensures lost { (cells : List (ℕ × Cell)) → AreCellsAt source.old at cells → option_map (λ c. c.1) (slice_get cells number) ≡ Some result }
    ensures put { (cells : List (ℕ × Cell)) → AreCellsAt source.old at cells → target.new ≡ put_each to (remove cells number) target.old }
{
    let (low, rest) = source.split_at_mut(number);
    let (lost, high) = rest.split_at_mut(1);
    let (target_low, target_high) = target.split_at_mut(number);
    move_cells(low, at, target_low, to);
    move_cells(high, at, target_high, to);
    lost[0].take(at)
}

/// The number of the column of a kind.
pub(crate) fn number_of(columns: &[Column], kind: u8) -> Option<usize>
    ensures { result ≡ position_from (λ c. nat_eq kind c.kind) 0 columns.now }
{
    columns.iter().position(|column| column.kind() == kind)
}

/// The number of the first column whose kind isn't below a kind.
pub(crate) fn number_from(columns: &[Column], kind: u8) -> Option<usize>
    ensures { result ≡ position_from (λ c. not (nat_lt c.kind kind)) 0 columns.now }
{
    columns.iter().position(|column| column.kind() >= kind)
}

/// The number at which a cell of a kind goes among cells of the other columns' kinds: how many of these kinds are
/// lower.
pub(crate) fn number_for(columns: &[Column], kind: u8) -> usize
    ensures within { result ≤ length columns.now }
    ensures goes { (cells : List (ℕ × Cell)) (cell : Cell) → kinds_in cells ≡ kinds_of columns.now → cell_of cells kind ≡ None
        → insert cells result (kind, cell) ≡ with_cell cells kind cell }
{
    match number_from(columns, kind) {
        Some(number) => number,
        None => columns.len(),
    }
}

/// Whether a cell of these columns may be one of those since a tick: where this says no, none of any part is.
pub(crate) fn may_have(columns: &[Column], since: Since) -> bool
    ensures { result ≡ false → (from to : ℕ) → list_any (λ c. list_any (is_since since) (slice_range c.cells from to)) columns.now ≡ false }
{
    for column in columns {
        if column.may_have(since) {
            return true;
        }
    }
    false
}

/// Whether one of the cells from a place on, and before another, is one of those since a tick, in one of these columns.
pub(crate) fn have_since(columns: &[Column], from: usize, to: usize, since: Since) -> bool
    requires { (from ≤ to) × All (λ c. to ≤ length c.cells) columns.now }
    ensures { result ≡ list_any (λ c. list_any (is_since since) (slice_range c.cells from to)) columns.now }
{
    for column in columns {
        if column.has_since(from, to, since) {
            return true;
        }
    }
    false
}

/// Columns with equal kinds and cells, or an error where no memory was found.
pub(crate) fn clone_columns(alloc: Global, columns: &[Column]) -> Result<Vec<Column>, AllocError>
    ensures same { IfOk result (λ copies. AllZip IsSameColumn columns.now copies.items) }
    ensures fits { IfOk result (λ copies. All (λ copy. length copy.cells ≤ copy.capacity) copies.items) }
{
    let mut copies = Vec::new(alloc);
    for column in columns {
        copies.push(column.try_clone()?)?;
    }
    Ok(copies)
}
