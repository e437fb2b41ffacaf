//! Copies of what deltas bring, before they are taken back or made again.
ghost use Rattle.std.specs.Prelude.{◌≡◌, ◌++◌, false, reverse, IfOk, OnOk};
ghost use Rattle.std.specs.List.{filter};
ghost use Rattle.scene_deltas.specs.Copies.{any_text, copies_back, copies_again};
ghost use Rattle.scene_deltas.specs.Segments.{shown};

use crate::delta::Delta;
use crate::delta_list::Deltas;
use crate::resource_cell::ResourceCell;
use crate::segment::Segment;
use scene_table::{has_text, is_text};
use std::alloc::AllocError;

/// Whether a resource has a cell whose value is a text.
fn any_text(cell: &ResourceCell) -> bool
    ensures { result ≡ any_text cell.now }
{
    match cell.get() {
        Some(cell) => is_text(&cell.value),
        None => false,
    }
}

/// Whether a delta that is taken back brings what only memory can copy: a text.
pub(crate) fn copies_back(delta: &Delta) -> bool
    ensures { result ≡ copies_back delta.now }
{
    match delta {
        Delta::Spawned { .. } | Delta::Linked { .. } => false,
        Delta::Despawned { cells, .. } => has_text(cells.as_slice()),
        Delta::Shifted { cell, .. } => is_text(&cell.value),
        Delta::CellSet { before, .. } => is_text(&before.value),
        Delta::ResourceSet { before, .. } => any_text(before),
    }
}

/// Whether a delta that is made again brings it.
pub(crate) fn copies_again(delta: &Delta) -> bool
    ensures { result ≡ copies_again delta.now }
{
    match delta {
        Delta::Despawned { .. } | Delta::Linked { .. } => false,
        Delta::Spawned { cells, .. } => has_text(cells.as_slice()),
        Delta::Shifted { cell, .. } => is_text(&cell.value),
        Delta::CellSet { after, .. } => is_text(&after.value),
        Delta::ResourceSet { after, .. } => any_text(after),
    }
}

/// Puts a copy of a segment's delta last, where it is one delta that brings it when it is taken back. A turn of a run
/// brings none.
fn copy_to_undo(copies: &mut Vec<Delta>, segment: &Segment) -> Result<(), AllocError>
    ensures { OnOk result (copies.new.items ≡ copies.old.items ++ filter copies_back (shown segment.now)) }
{
    if let Segment::One(delta) = segment {
        if copies_back(delta) {
            copies.push(delta.try_clone()?)?;
        }
    }
    Ok(())
}

/// Puts a copy of a segment's delta last, where it is one delta that brings it when it is made again.
fn copy_to_redo(copies: &mut Vec<Delta>, segment: &Segment) -> Result<(), AllocError>
    ensures { OnOk result (copies.new.items ≡ copies.old.items ++ reverse (filter copies_again (shown segment.now))) }
{
    if let Segment::One(delta) = segment {
        if copies_again(delta) {
            copies.push(delta.try_clone()?)?;
        }
    }
    Ok(())
}

/// Copies of the deltas that bring it where they are taken back, the first first: what `undo_all` takes. Only want of
/// memory is an error.
pub fn copies_to_undo(deltas: &Deltas) -> Result<Vec<Delta>, AllocError>
    ensures { IfOk result (λ copies. copies.items ≡ filter copies_back deltas.now.items) }
{
    let mut copies = Vec::new(deltas.alloc());
    let segments = deltas.segments();
    for segment in segments {
        copy_to_undo(&mut copies, segment)?;
    }
    Ok(copies)
}

/// Copies of the deltas that bring it where they are made again, the last first: what `redo_all` takes. Only want of
/// memory is an error.
pub fn copies_to_redo(deltas: &Deltas) -> Result<Vec<Delta>, AllocError>
    ensures { IfOk result (λ copies. copies.items ≡ reverse (filter copies_again deltas.now.items)) }
{
    let mut copies = Vec::new(deltas.alloc());
    let mut left = deltas.segments();
    'left: while let Some((segment, before)) = left.split_last() {
        copy_to_redo(&mut copies, segment)?;
        left = before;
    }
    Ok(copies)
}
