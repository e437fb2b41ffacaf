//! Records that don't fit, on a world of tick 1 with one entity, whose one Int is 5 since then.
use crate::editors::small::{editor_of, given, queue_of, submit_one};
use crate::editors::trials::{Then, Trial, taken_up, try_new};
use crate::scenes::first;
use scene_commands::Command;
use scene_deltas::{Delta, Deltas};
use scene_journal::FrameRecord;
use scene_kinds::{Cell, Cells, Fault, Refusal, Shape, Value};
use scene_queue::Queue;
use scene_undo::Editor;
use std::alloc::Global;
use std::process::Abort;
use std::test::Fail;

/// The queue of the one frame.
fn one_spawn(alloc: Global) -> Result<Queue, Refusal> {
    let components = given(alloc, Value::Int(5))?;
    queue_of(alloc, Command::Spawn(components))
}

/// Does the one frame, undoes it and redoes it.
fn begin(alloc: Global, editor: &mut Editor) -> Result<(), Refusal> {
    submit_one(alloc, editor, one_spawn(alloc)?)?;
    editor.undo()?;
    editor.redo()
}

/// A record of the spawn, with this tick and this number; those of the frame are 0 and 5.
fn spawned(alloc: Global, tick_before: u64, number: i64) -> Result<FrameRecord, Refusal> {
    let cell = Cell {
        value: Value::Int(number),
        added: 1,
        changed: 1,
    };
    let delta = Delta::Spawned {
        entity: first(0),
        cells: Cells::from_vec(vec![in alloc; (0, cell)]?),
        fresh: true,
    };
    let deltas = vec![in alloc; delta]?;
    Ok(FrameRecord::new(tick_before, Deltas::from_list(alloc, deltas)?))
}

/// A record of a frame without commands.
fn nothing(alloc: Global, tick_before: u64) -> FrameRecord {
    FrameRecord::new(tick_before, Deltas::new(alloc))
}

/// A record of a link of the entity to itself, at the world's tick.
fn linked_to_itself(alloc: Global) -> Result<FrameRecord, Refusal> {
    let delta = Delta::Linked {
        entity: first(0),
        before: None,
        after: Some((first(0), 0)),
    };
    let deltas = vec![in alloc; delta]?;
    Ok(FrameRecord::new(1, Deltas::from_list(alloc, deltas)?))
}

/// Why an editor of a copy of this one's world is refused with these records, if it is.
fn fault_of(
    rt: &impl Abort,
    alloc: Global,
    editor: &Editor,
    past: Vec<FrameRecord>,
    future: Vec<FrameRecord>,
) -> Option<Fault> {
    let world = editor.world().try_clone().expect(rt, "memory");
    let made = Editor::from_parts(alloc, world, past, future, 1);
    taken_up(made, Then::Nothing).err()
}

/// The past of just the record of a spawn.
fn past_of(rt: &impl Abort, alloc: Global, tick_before: u64, number: i64) -> Vec<FrameRecord> {
    let record = spawned(alloc, tick_before, number).expect(rt, "memory");
    vec![in alloc; record].expect(rt, "memory")
}

/// Why an editor of such a record of the spawn is refused, if it is.
fn fault(
    rt: &impl Abort,
    alloc: Global,
    editor: &Editor,
    tick_before: u64,
    number: i64,
) -> Option<Fault> {
    let past = past_of(rt, alloc, tick_before, number);
    fault_of(rt, alloc, editor, past, Vec::new(alloc))
}

/// Why an editor of the one frame and of a record of the future is refused, if it is.
fn later_fault(
    rt: &impl Abort,
    alloc: Global,
    editor: &Editor,
    future: FrameRecord,
) -> Option<Fault> {
    let future = vec![in alloc; future].expect(rt, "memory");
    fault_of(rt, alloc, editor, past_of(rt, alloc, 0, 5), future)
}

pub fn past_is_tried(rt: &impl Abort, alloc: Global, editor: &mut Editor) {
    assert!(rt; begin(alloc, editor).is_ok());
    let tick = Fault::BadRecord { frame: 0, delta: 1 };
    let cell = Fault::BadRecord { frame: 0, delta: 0 };
    assert_eq!(rt; fault(rt, alloc, editor, 0, 5), None);
    assert_eq!(rt; fault(rt, alloc, editor, 3, 5), Some(tick));
    assert_eq!(rt; fault(rt, alloc, editor, 0, 6), Some(cell));
}

#[test]
fn faults_of_the_past_are_told(rt: HostRuntime) -> Result<(), Fail> {
    try_new(
        &rt,
        rt.alloc(),
        editor_of(rt.alloc(), Shape::Int),
        Trial::PastFaults,
    );
    Ok(())
}

pub fn future_is_tried(rt: &impl Abort, alloc: Global, editor: &mut Editor) {
    assert!(rt; begin(alloc, editor).is_ok());
    let second = Fault::BadRecord { frame: 1, delta: 0 };
    assert_eq!(rt; later_fault(rt, alloc, editor, nothing(alloc, 1)), None);
    assert_eq!(rt;
        later_fault(rt, alloc, editor, nothing(alloc, 0)),
        Some(second)
    );
    let link = linked_to_itself(alloc).expect(rt, "memory");
    assert_eq!(rt; later_fault(rt, alloc, editor, link), Some(second));
}

#[test]
fn faults_of_the_future_are_told(rt: HostRuntime) -> Result<(), Fail> {
    try_new(
        &rt,
        rt.alloc(),
        editor_of(rt.alloc(), Shape::Int),
        Trial::FutureFaults,
    );
    Ok(())
}
