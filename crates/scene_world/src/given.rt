//! The cells that a spawn or an insert is given: their faults, and the row that they make.
ghost use Rattle.std.specs.Prelude.{◌≡◌, [], IfOk, map as each, nat_eq, not};
ghost use Rattle.std.specs.List.{list_any};
ghost use Rattle.scene_kinds.specs.Cells.{new_cell};
ghost use Rattle.scene_kinds.specs.Schema.{fits_kind};
ghost use Rattle.scene_model.specs.World.{is_unknown};
ghost use Rattle.scene_model.specs.Commands.{any_twice, spawn_fault, insert_fault, new_cells};
ghost use Rattle.scene_world.specs.Usual.{ascends_from, is_usual_from};

use scene_kinds::{Cell, Cells, Fault, Schema, Value};
use std::alloc::{AllocError, Global};

/// Whether a kind isn't in the schema.
pub(crate) fn is_unknown(schema: &Schema, kind: u8) -> bool
    ensures { result ≡ is_unknown schema.now kind }
{
    kind as usize >= schema.len()
}

fn any_unknown(schema: &Schema, cells: &[(u8, Value)]) -> bool
    ensures { result ≡ list_any (λ c. is_unknown schema.now c.0) cells.now }
{
    cells.iter().any(|cell| is_unknown(schema, cell.0))
}

fn has_kind(cells: &[(u8, Value)], kind: u8) -> bool
    ensures { result ≡ list_any (λ d. nat_eq kind d.0) cells.now }
{
    cells.iter().any(|cell| kind == cell.0)
}

fn any_repeated(cells: &[(u8, Value)]) -> bool
    ensures { result ≡ any_twice cells.now }
{
    for i in 0..cells.len() {
        if has_kind(&cells[i + 1..], cells[i].0) {
            return true;
        }
    }
    false
}

fn any_misfit(schema: &Schema, cells: &[(u8, Value)]) -> bool
    ensures { result ≡ list_any (λ c. not (fits_kind schema.now c.1 c.0)) cells.now }
{
    cells.iter().any(|cell| !schema.fits(&cell.1, cell.0))
}

/// Whether the kinds strictly ascend and each value fits its kind, as in most spawns: then no fault is there.
fn are_usual(schema: &Schema, cells: &[(u8, Value)]) -> bool
    ensures { result ≡ is_usual_from schema.now 0 cells.now }
{
    let mut least: u16 = 0;
    for (kind, value) in cells {
        let number = u16::from(*kind);
        if number < least || !schema.fits(value, *kind) {
            return false;
        }
        least = number + 1;
    }
    true
}

/// The first fault of the cells that a spawn is given: each is tried over all cells before the next one.
#[tactic(auto, using(crate::proofs::Usual::usual_is_faultless))]
pub(crate) fn spawn_fault(schema: &Schema, cells: &[(u8, Value)]) -> Option<Fault>
    ensures { result ≡ spawn_fault schema.now cells.now }
{
    if are_usual(schema, cells) {
        return None;
    }
    if any_unknown(schema, cells) {
        return Some(Fault::NoSuchKind);
    }
    if any_repeated(cells) {
        return Some(Fault::DuplicateKind);
    }
    if any_misfit(schema, cells) {
        return Some(Fault::WrongShape);
    }
    None
}

/// The first fault of the value that an insert is given.
pub(crate) fn insert_fault(schema: &Schema, kind: u8, value: &Value) -> Option<Fault>
    ensures { result ≡ insert_fault schema.now kind value.now }
{
    if is_unknown(schema, kind) {
        return Some(Fault::NoSuchKind);
    }
    if !schema.fits(value, kind) {
        return Some(Fault::WrongShape);
    }
    None
}

/// Whether the kinds strictly ascend.
fn ascend(given: &[(u8, Value)]) -> bool
    ensures { result ≡ ascends_from 0 given.now }
{
    let mut least: u16 = 0;
    for (kind, _) in given {
        let number = u16::from(*kind);
        if number < least {
            return false;
        }
        least = number + 1;
    }
    true
}

/// New cells in the order in which they are given.
fn cells_in_order(alloc: Global, tick: u64, given: Vec<(u8, Value)>) -> Result<Cells, AllocError>
    ensures { IfOk result (λ cells. cells ≡ each (λ c. (c.0, new_cell tick c.1)) given.items) }
{
    let mut cells = Vec::with_capacity(alloc, given.len())?;
    for (kind, value) in given {
        cells.push_reserved((kind, Cell::new(value, tick)));
    }
    Ok(Cells::from_vec(cells))
}

/// New cells of copied values, in the order in which they are given.
fn copies_in_order(alloc: Global, tick: u64, given: &[(u8, Value)]) -> Result<Cells, AllocError>
    ensures { IfOk result (λ cells. cells ≡ each (λ c. (c.0, new_cell tick c.1)) given.now) }
{
    let mut cells = Vec::with_capacity(alloc, given.len())?;
    for (kind, value) in given {
        cells.push_reserved((*kind, Cell::new(value.try_clone()?, tick)));
    }
    Ok(Cells::from_vec(cells))
}

/// No cells, with room for so many. One alone needs none.
fn room_for(alloc: Global, count: usize) -> Result<Cells, AllocError>
    ensures { IfOk result (λ cells. cells ≡ []) }
{
    if count > 1 {
        Ok(Cells::from_vec(Vec::with_capacity(alloc, count)?))
    } else {
        Ok(Cells::new(alloc))
    }
}

/// The cells of a new row, ascending by kind, each with both ticks now.
#[tactic(auto, using(crate::proofs::Onto::steps, crate::proofs::Usual::each_is_put))]
pub(crate) fn new_cells(
    alloc: Global,
    tick: u64,
    given: Vec<(u8, Value)>,
) -> Result<Cells, AllocError>
    ensures { IfOk result (λ cells. cells ≡ new_cells tick given.items) }
{
    if given.len() > 1 && ascend(given.as_slice()) {
        return cells_in_order(alloc, tick, given);
    }
    let mut given = given;
    let mut cells = room_for(alloc, given.len())?;
    while let Some((kind, value)) = given.pop() {
        cells.put(kind, Cell::new(value, tick))?;
    }
    Ok(cells)
}

/// The cells of a new row as `new_cells` makes them, with copies of values that are lent.
#[tactic(auto, using(crate::proofs::Onto::steps, crate::proofs::Usual::each_is_put))]
pub(crate) fn copied_cells(
    alloc: Global,
    tick: u64,
    given: &[(u8, Value)],
) -> Result<Cells, AllocError>
    ensures { IfOk result (λ cells. cells ≡ new_cells tick given.now) }
{
    if given.len() > 1 && ascend(given) {
        return copies_in_order(alloc, tick, given);
    }
    let mut cells = room_for(alloc, given.len())?;
    let mut left = given;
    'left: while let Some(((kind, value), before)) = left.split_last() {
        cells.put(*kind, Cell::new(value.try_clone()?, tick))?;
        left = before;
    }
    Ok(cells)
}
