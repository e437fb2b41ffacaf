//! Deltas that are made again and taken back in a world that has room for them.
ghost use Rattle.std.specs.Prelude.{◌≡◌};
ghost use Rattle.scene_deltas.specs.Deltas.{back, fwd, FitsBack, FitsOn, back_all};
ghost use Rattle.scene_deltas.specs.Ready.{AreReady};
ghost use Rattle.scene_deltas.specs.Segments.{shown};
ghost use Rattle.scene_world.specs.Room.{Holds};

use crate::delta::Delta;
use crate::delta_list::Deltas;
use crate::segment::Segment;
use crate::turn::take_turn_back;
use scene_kinds::Entity;
use scene_table::RowCells;
use scene_world::{RawChanges, World};

/// A link as the calls of a world take it.
pub(crate) fn wide(link: Option<(Entity, u32)>) -> Option<(Entity, usize)>
    ensures { result ≡ link }
{
    let (parent, place) = link?;
    Some((parent, place as usize))
}

/// Takes a delta back, where it fits back and the room holds the world before it (docs/JOURNAL.md, "The six deltas").
/// It takes no memory: the cells that come back are the delta's own.
pub fn take_back(world: &mut World, delta: Delta)
    requires fits { FitsBack delta world.old.world }
    requires room { Holds world.old.room (back delta world.old.world) }
    ensures world { world.new.world ≡ back delta world.old.world }
    ensures room { world.new.room ≡ world.old.room }
{
    let _tick = world.tick();
    match delta {
        Delta::Spawned { entity, fresh, .. } => world.drop_last(entity, fresh),
        Delta::Despawned {
            entity,
            place,
            cells,
            link,
            retired,
        } => {
            let cells = RowCells::own(cells);
            world.uncut_row_reserved(entity, place as usize, cells, wide(link), retired);
        }
        Delta::Shifted {
            entity,
            place,
            kind,
            cell,
            inward,
        } => world.unshift_row_reserved(entity, place as usize, kind, cell, inward),
        Delta::CellSet {
            entity,
            kind,
            before,
            ..
        } => {
            let _after = world.set_cell(entity, kind, before);
        }
        Delta::Linked { entity, before, .. } => world.set_link_reserved(entity, wide(before)),
        Delta::ResourceSet { name, before, .. } => {
            let _after = world.set_resource_reserved(name.as_str(), before.into_cell());
        }
    }
}

/// Makes a delta again, where it fits and the room holds the world after it (docs/JOURNAL.md, "The six deltas"). It
/// takes no memory: the cells that come are the delta's own.
pub fn make_again(world: &mut World, delta: Delta)
    requires fits { FitsOn delta world.old.world }
    requires room { Holds world.old.room (fwd delta world.old.world) }
    ensures world { world.new.world ≡ fwd delta world.old.world }
    ensures room { world.new.room ≡ world.old.room }
{
    let _tick = world.tick();
    match delta {
        Delta::Spawned {
            entity,
            cells,
            fresh,
        } => world.put_row_reserved(entity, RowCells::own(cells), fresh),
        Delta::Despawned { entity, .. } => world.cut_row(entity),
        Delta::Shifted {
            entity,
            kind,
            cell,
            inward,
            ..
        } => world.shift_row_reserved(entity, kind, cell, inward),
        Delta::CellSet {
            entity,
            kind,
            after,
            ..
        } => {
            let _before = world.set_cell(entity, kind, after);
        }
        Delta::Linked { entity, after, .. } => world.set_link_reserved(entity, wide(after)),
        Delta::ResourceSet { name, after, .. } => {
            let _before = world.set_resource_reserved(name.as_str(), after.into_cell());
        }
    }
}

/// Takes the deltas of a segment back, the last first, where each is ready at its turn.
fn take_segment_back(world: &mut World, segment: Segment)
    requires { AreReady world.old.room (shown segment) world.old.world }
    ensures world { world.new.world ≡ back_all (shown segment) world.old.world }
    ensures room { world.new.room ≡ world.old.room }
{
    match segment {
        Segment::One(delta) => take_back(world, delta),
        Segment::Written(written) => take_turn_back(world, &written),
    }
}

/// Takes deltas back, the last first, where each is ready at its turn. It takes no memory.
pub fn take_all_back(world: &mut World, deltas: Deltas)
    requires { AreReady world.old.room deltas.items world.old.world }
    ensures world { world.new.world ≡ back_all deltas.items world.old.world }
    ensures room { world.new.room ≡ world.old.room }
{
    let mut left = deltas.into_held();
    'left: while let Some(segment) = left.pop() {
        take_segment_back(world, segment);
    }
}
