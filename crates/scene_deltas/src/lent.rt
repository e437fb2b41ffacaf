//! Deltas that are taken back and made again in a world that has room for them, by reference.
ghost use Rattle.std.specs.Prelude.{◌≡◌, ◌++◌, List, false, reverse};
ghost use Rattle.std.specs.List.{filter};
ghost use Rattle.scene_deltas.specs.Copies.{any_text, copies_again, copies_back, with_copy};
ghost use Rattle.scene_deltas.specs.Deltas.{back, fwd, FitsOn, FitsBack, back_all, fwd_all};
ghost use Rattle.scene_deltas.specs.Ready.{AreReady, AreReadyOn};
ghost use Rattle.scene_deltas.specs.Segments.{shown};
ghost use Rattle.scene_deltas.specs.declared.delta.Delta.{Delta as Change};
ghost use Rattle.scene_world.specs.Room.{Holds};

use crate::copies::{copies_again, copies_back};
use crate::delta::Delta;
use crate::delta_list::Deltas;
use crate::resource_cell::ResourceCell;
use crate::segment::Segment;
use crate::steps::{make_again, take_back, wide};
use crate::turn::{make_turn_again, take_turn_back};
use scene_kinds::Cell;
use scene_table::{RowCells, plain_cell};
use scene_world::{RawChanges, World};

/// A copy of the cell of a resource, where there is one. It takes no memory.
fn plain_copy(cell: &ResourceCell) -> Option<Cell>
    requires { any_text cell.now ≡ false }
    ensures { result ≡ cell.now }
{
    match cell.get() {
        Some(cell) => Some(plain_cell(cell)),
        None => None,
    }
}

/// Takes a delta back, where it fits back and the room holds the world before it, and what it brings is copied without
/// memory.
fn take_back_lent(world: &mut World, delta: &Delta)
    requires fits { FitsBack delta.now world.old.world }
    requires room { Holds world.old.room (back delta.now world.old.world) }
    requires plain { copies_back delta.now ≡ false }
    ensures world { world.new.world ≡ back delta.now world.old.world }
    ensures room { world.new.room ≡ world.old.room }
{
    let _tick = world.tick();
    match delta {
        Delta::Spawned { entity, fresh, .. } => world.drop_last(*entity, *fresh),
        Delta::Despawned {
            entity,
            place,
            cells,
            link,
            retired,
        } => {
            let cells = RowCells::lent(cells);
            world.uncut_row_reserved(*entity, *place as usize, cells, wide(*link), *retired);
        }
        Delta::Shifted {
            entity,
            place,
            kind,
            cell,
            inward,
        } => {
            let cell = plain_cell(cell);
            world.unshift_row_reserved(*entity, *place as usize, *kind, cell, *inward);
        }
        Delta::CellSet {
            entity,
            kind,
            before,
            ..
        } => {
            let _after = world.set_cell(*entity, *kind, plain_cell(before));
        }
        Delta::Linked { entity, before, .. } => world.set_link_reserved(*entity, wide(*before)),
        Delta::ResourceSet { name, before, .. } => {
            let _after = world.set_resource_reserved(name.as_str(), plain_copy(before));
        }
    }
}

/// Makes a delta again, where it fits and the room holds the world after it, and what it brings is copied without
/// memory.
fn make_again_lent(world: &mut World, delta: &Delta)
    requires fits { FitsOn delta.now world.old.world }
    requires room { Holds world.old.room (fwd delta.now world.old.world) }
    requires plain { copies_again delta.now ≡ false }
    ensures world { world.new.world ≡ fwd delta.now world.old.world }
    ensures room { world.new.room ≡ world.old.room }
{
    let _tick = world.tick();
    match delta {
        Delta::Spawned {
            entity,
            cells,
            fresh,
        } => world.put_row_reserved(*entity, RowCells::lent(cells), *fresh),
        Delta::Despawned { entity, .. } => world.cut_row(*entity),
        Delta::Shifted {
            entity,
            kind,
            cell,
            inward,
            ..
        } => world.shift_row_reserved(*entity, *kind, plain_cell(cell), *inward),
        Delta::CellSet {
            entity,
            kind,
            after,
            ..
        } => {
            let _before = world.set_cell(*entity, *kind, plain_cell(after));
        }
        Delta::Linked { entity, after, .. } => world.set_link_reserved(*entity, wide(*after)),
        Delta::ResourceSet { name, after, .. } => {
            let _before = world.set_resource_reserved(name.as_str(), plain_copy(after));
        }
    }
}

/// Takes a delta back, by its copy, the last one, where what it brings has one.
fn step_back(world: &mut World, delta: &Delta, copies: &mut Vec<Delta>)
    requires fits { FitsBack delta.now world.old.world }
    requires room { Holds world.old.room (back delta.now world.old.world) }
    requires copy { (others : List Change) × (copies.old.items ≡ with_copy (copies_back delta.now) delta.now others) }
    ensures world { world.new.world ≡ back delta.now world.old.world }
    ensures room { world.new.room ≡ world.old.room }
    ensures copies { copies.old.items ≡ with_copy (copies_back delta.now) delta.now copies.new.items }
{
    if !copies_back(delta) {
        take_back_lent(world, delta);
        return;
    }
    match copies.pop() {
        Some(copy) => take_back(world, copy),
        None => unreachable!(),
    }
}

/// Makes a delta again, by its copy, the last one, where what it brings has one.
fn step_again(world: &mut World, delta: &Delta, copies: &mut Vec<Delta>)
    requires fits { FitsOn delta.now world.old.world }
    requires room { Holds world.old.room (fwd delta.now world.old.world) }
    requires copy { (others : List Change) × (copies.old.items ≡ with_copy (copies_again delta.now) delta.now others) }
    ensures world { world.new.world ≡ fwd delta.now world.old.world }
    ensures room { world.new.room ≡ world.old.room }
    ensures copies { copies.old.items ≡ with_copy (copies_again delta.now) delta.now copies.new.items }
{
    if !copies_again(delta) {
        make_again_lent(world, delta);
        return;
    }
    match copies.pop() {
        Some(copy) => make_again(world, copy),
        None => unreachable!(),
    }
}

/// Takes the deltas of a segment back, the last first, by their copies, the last ones.
fn segment_back(world: &mut World, segment: &Segment, copies: &mut Vec<Delta>)
    requires ready { AreReady world.old.room (shown segment.now) world.old.world }
    requires copies { (others : List Change) × (copies.old.items ≡ others ++ filter copies_back (shown segment.now)) }
    ensures world { world.new.world ≡ back_all (shown segment.now) world.old.world }
    ensures room { world.new.room ≡ world.old.room }
    ensures copies { copies.old.items ≡ copies.new.items ++ filter copies_back (shown segment.now) }
{
    match segment {
        Segment::One(delta) => step_back(world, delta, copies),
        Segment::Written(written) => take_turn_back(world, written),
    }
}

/// Makes the deltas of a segment again, the first first, by their copies, the last ones.
fn segment_again(world: &mut World, segment: &Segment, copies: &mut Vec<Delta>)
    requires ready { AreReadyOn world.old.room (shown segment.now) world.old.world }
    requires copies { (others : List Change) × (copies.old.items ≡ others ++ reverse (filter copies_again (shown segment.now))) }
    ensures world { world.new.world ≡ fwd_all (shown segment.now) world.old.world }
    ensures room { world.new.room ≡ world.old.room }
    ensures copies { copies.old.items ≡ copies.new.items ++ reverse (filter copies_again (shown segment.now)) }
{
    match segment {
        Segment::One(delta) => step_again(world, delta, copies),
        Segment::Written(written) => make_turn_again(world, written),
    }
}

/// Takes deltas back by reference, the last first, where each is ready at its turn. The copies are those of
/// `copies_to_undo`. It takes no memory.
pub fn undo_all(world: &mut World, deltas: &Deltas, copies: Vec<Delta>)
    requires ready { AreReady world.old.room deltas.now.items world.old.world }
    requires copies { copies.items ≡ filter copies_back deltas.now.items }
    ensures world { world.new.world ≡ back_all deltas.now.items world.old.world }
    ensures room { world.new.room ≡ world.old.room }
{
    let mut copies = copies;
    let mut left = deltas.segments();
    'left: while let Some((segment, before)) = left.split_last() {
        segment_back(world, segment, &mut copies);
        left = before;
    }
}

/// Makes deltas again by reference, the first first, where each is ready at its turn. The copies are those of
/// `copies_to_redo`. It takes no memory.
pub fn redo_all(world: &mut World, deltas: &Deltas, copies: Vec<Delta>)
    requires ready { AreReadyOn world.old.room deltas.now.items world.old.world }
    requires copies { copies.items ≡ reverse (filter copies_again deltas.now.items) }
    ensures world { world.new.world ≡ fwd_all deltas.now.items world.old.world }
    ensures room { world.new.room ≡ world.old.room }
{
    let mut copies = copies;
    let segments = deltas.segments();
    for segment in segments {
        segment_again(world, segment, &mut copies);
    }
}
