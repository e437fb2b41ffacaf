//! The calls of C that read what each frame did, and leave the scene as it is, with its last answer.
ghost use Rattle.std.specs.Prelude.{◌≡◌};
ghost use Rattle.scene_c.specs.Arguments.{kind_of};
ghost use Rattle.scene_c.specs.Steps.{TellsPartsOf, TellsStepOf, TellsTextsOf, row_seen, way_by};

use crate::delta::SceneDelta;
use crate::delta_parts::{RowPart, TextPart};
use crate::handle::{Handle, into_held};
use crate::steps::way_by;
use crate::value::{SceneCell, kind_of};
use crate::{BAD, CLOSED};
use std::alloc::Global;
use std::mem;

/// Tells a step, by its place from 0 along a way: 0 for the frames that can be undone, from the newest, and 1 for those
/// that can be redone, from the next one. The tick of the world before it, and its deltas in the order in which they
/// were made. `REFUSED` where there is no such step, and `BAD` for another way. It costs the deltas up to the last that
/// is told.
#[unsafe(no_mangle)]
pub extern "C" fn scene_step(
    alloc: Global,
    scene: &mut Handle,
    way: u32,
    place: usize,
    tick: &mut u64,
    from: usize,
    at: &mut [SceneDelta],
    total: &mut usize,
) -> u32
    ensures told { TellsStepOf (way_by way) place from scene.old.value tick.old tick.new at.old at.new total.old total.new result }
    ensures kept { scene.new.value ≡ scene.old.value }
{
    let Some(way) = way_by(way) else {
        return BAD;
    };
    let taken = mem::replace(scene, Handle::closed(alloc));
    let Some(held) = into_held(taken) else {
        return CLOSED;
    };
    let code = held.seen().step(way, place, tick, from, at, total);
    *scene = Handle::of_box(held);
    code
}

/// Tells the components of the rows that the deltas of a step brought or took away, from one delta on: one behind the
/// other, by kind in each row, and for each delta where its own end. Texts come apart. It tells of as many deltas as there
/// are places in `ends` and as have all in `cells`, and says how many those are. `REFUSED` where there is no such step,
/// and `BAD` for another way. It costs the deltas up to the last that is told.
#[unsafe(no_mangle)]
pub extern "C" fn scene_delta_rows(
    alloc: Global,
    scene: &mut Handle,
    way: u32,
    place: usize,
    from: usize,
    ends: &mut [usize],
    cells: &mut [SceneCell],
    told: &mut usize,
    total: &mut usize,
) -> u32
    ensures told { TellsPartsOf row_seen (way_by way) place from scene.old.value
        ends.old ends.new cells.old cells.new told.old told.new total.old total.new result }
    ensures kept { scene.new.value ≡ scene.old.value }
{
    let Some(way) = way_by(way) else {
        return BAD;
    };
    let taken = mem::replace(scene, Handle::closed(alloc));
    let Some(held) = into_held(taken) else {
        return CLOSED;
    };
    let code = held
        .seen()
        .parts(&RowPart, way, place, from, ends, cells, told, total);
    *scene = Handle::of_box(held);
    code
}

/// Tells a text of each delta of a step, from one delta on: for 0 the one before it, for 1 the one after it, in a row of
/// the component of a kind, and for 2 the name of its resource; it is empty where there is none. They come as by
/// `scene_delta_rows`. `REFUSED` where there is no such step, and `BAD` for another way and for a kind of 256 or more.
#[unsafe(no_mangle)]
pub extern "C" fn scene_delta_texts(
    alloc: Global,
    scene: &mut Handle,
    way: u32,
    place: usize,
    which: u32,
    kind: u32,
    from: usize,
    ends: &mut [usize],
    bytes: &mut [u8],
    told: &mut usize,
    total: &mut usize,
) -> u32
    ensures told { TellsTextsOf which (kind_of kind) (way_by way) place from scene.old.value
        ends.old ends.new bytes.old bytes.new told.old told.new total.old total.new result }
    ensures kept { scene.new.value ≡ scene.old.value }
{
    let (Some(way), Some(kind)) = (way_by(way), kind_of(kind)) else {
        return BAD;
    };
    let taken = mem::replace(scene, Handle::closed(alloc));
    let Some(held) = into_held(taken) else {
        return CLOSED;
    };
    let part = TextPart { which, kind };
    let code = held
        .seen()
        .parts(&part, way, place, from, ends, bytes, told, total);
    *scene = Handle::of_box(held);
    code
}
