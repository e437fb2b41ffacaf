//! Each runs to its end alone; the ones with threads answer the same whatever the schedule.
ghost use Rattle.std.specs.Prelude.{◌≡◌, ◌<◌, ◌≤◌, All, vec_len};
ghost use Rattle.scene_lock.specs.Pass.{IsPassOf};
ghost use Rattle.scene_session.specs.Session.{IsSame};

use crate::frames::{ALL, counting_schedule, spawning};
use crate::inside::{Meeting, Stay, ask_together, try_beside};
use crate::replays::{frames_in_order, play_again, shown};
use crate::scenes::{
    crowded_editor, empty_editor, empty_schedule, empty_state, schedule_of_other_kinds, two_systems,
};
use crate::threads::{Work, meet_in_turn, submit_one, work_at_once};
use crate::workers::{TwoWorkers, advance_past};
use scene_commands::Command;
use scene_kinds::{Entity, Fault, Refusal, Row, Value};
use scene_lock::{Pass, WordLock};
use scene_lock_tests::Gate;
use scene_pass::{CellName, rows};
use scene_queue::Queue;
use scene_session::{AddedSince, Call, CursorNow, Entry, Reply, RowsOf, Session, State, Stopped};
use scene_undo::{Cursor, Editor, Made};
use std::alloc::{AllocError, Global};
use std::mem::size_of;
use std::process::Abort;
use std::sync::Wait;
use std::test::*;
use std::thread::Threads;

/// A lock over a state without entities, whose history may have so many entries.
fn new_lock(
    rt: &impl Abort,
    alloc: Global,
    passes: u32,
    limit: u32,
) -> (WordLock<State>, Vec<Pass<State>>)
    requires passes { (0 < passes) × (passes ≤ 64) }
    requires limit { (1 ≤ limit) × (limit ≤ 1048576) }
    ensures count { vec_len result.1 ≡ passes }
    ensures each { All (IsPassOf result.0) result.1.items }
{
    let state = empty_state(alloc, limit).expect(rt, "a state");
    WordLock::new(alloc, state, passes).expect(rt, "a lock")
}

/// What is tried on a state.
#[derive(Clone, Copy)]
enum Trial {
    /// Its history, which may have two entries, becomes full.
    Fills,
    /// Two sessions have shared it.
    WasShared,
    /// Each of so many sessions has entered so many frames of one spawn, in its order, and there is nothing else.
    HasFrames { sessions: u32, frames: u32 },
    /// Its history leads another state to the same.
    Replays,
    /// It refuses to advance by a schedule for other kinds.
    Refuses,
}

impl Trial {
    fn run<R: Threads + Abort + Sync>(self, rt: &R, alloc: Global, state: &mut State) {
        match self {
            Trial::Fills => history_fills(rt, state),
            Trial::Refuses => state_refuses(rt, alloc, state),
            Trial::WasShared => was_shared(rt, state),
            Trial::HasFrames { sessions, frames } => {
                has_frames(rt, alloc, state, sessions, frames)
            }
            Trial::Replays => history_replays(rt, alloc, state),
        }
    }
}

/// Tries a state, and drops it, which is dear to prove.
fn try_state<R: Threads + Abort + Sync>(rt: &R, alloc: Global, state: State, trial: Trial) {
    let mut state = state;
    trial.run(rt, alloc, &mut state);
}

/// What a call came to.
#[derive(Clone, Copy)]
enum Told {
    Undone,
    Redone,
    Refused,
}

/// Whether a reply tells just that.
fn tells(reply: Result<Reply, Stopped>, told: Told) -> bool {
    match (&reply, told) {
        (Ok(Reply::Undone), Told::Undone)
        | (Ok(Reply::Redone), Told::Redone)
        | (Ok(Reply::Refused(_)), Told::Refused) => true,
        _ => false,
    }
}

/// Whether an undo is stopped, and handed back, since there are two entries.
fn undo_is_stopped(state: &mut State) -> bool {
    match state.perform(0, Call::Undo) {
        Ok(_) => false,
        Err(stopped) => {
            stopped.refusal.fault == Fault::HistoryFull(2) && matches!(stopped.call, Call::Undo)
        }
    }
}

fn history_fills(rt: &impl Abort, state: &mut State) {
    assert!(rt; tells(state.perform(0, Call::Undo), Told::Refused));
    assert!(rt; tells(state.perform(0, Call::Undo), Told::Refused));
    assert!(rt; undo_is_stopped(state));
    assert_eq!(rt; state.history().len(), 2);
}

#[test]
fn a_full_history_stops_calls(rt: HostRuntime) -> Result<(), Fail> {
    let state = empty_state(rt.alloc(), 2).expect(&rt, "a state");
    try_state(&rt, rt.alloc(), state, Trial::Fills);
    Ok(())
}

/// Whether an advance was refused, and that entered, as one by a schedule for other kinds.
fn is_of_other_kinds(reply: &Result<Reply, Stopped>) -> bool {
    match reply {
        Ok(Reply::Refused(refusal)) => *refusal == Refusal::from(Fault::OtherSchema),
        _ => false,
    }
}

fn state_refuses<R: Threads + Abort + Sync>(rt: &R, alloc: Global, state: &mut State) {
    let schedule = schedule_of_other_kinds(alloc).expect(rt, "a schedule");
    let alone = state.perform(0, Call::Advance(schedule));
    assert!(rt; is_of_other_kinds(&alone));
    let schedule = schedule_of_other_kinds(alloc).expect(rt, "a schedule");
    let on_threads = state.perform_with(rt, 0, Call::Advance(schedule), 2);
    assert!(rt; is_of_other_kinds(&on_threads));
    assert_eq!(rt; state.history().len(), 2);
    assert_eq!(rt; state.editor().world().tick(), 0);
}

#[test]
fn a_state_refuses_a_schedule_for_other_kinds(rt: HostRuntime) -> Result<(), Fail> {
    let state = empty_state(rt.alloc(), 2).expect(&rt, "a state");
    try_state(&rt, rt.alloc(), state, Trial::Refuses);
    Ok(())
}

/// Why an editor refused, if it did.
fn refusal_of(answer: Result<Made, Refusal>) -> Option<Refusal> {
    match answer {
        Ok(_) => None,
        Err(refusal) => Some(refusal),
    }
}

fn editor_refuses<R: Threads + Abort + Sync>(rt: &R, alloc: Global, editor: &mut Editor) {
    let schedule = schedule_of_other_kinds(alloc).expect(rt, "a schedule");
    let wanted = Some(Refusal::from(Fault::OtherSchema));
    assert_eq!(rt; refusal_of(editor.advance_alone(&schedule)), wanted);
    assert_eq!(rt; refusal_of(editor.advance(rt, &schedule, 2)), wanted);
    assert_eq!(rt; (editor.undo_len(), editor.world().tick()), (0, 0));
}

#[test]
fn an_advance_shared_by_two_workers_starts_both(rt: HostRuntime) -> Result<(), Fail> {
    let alloc = rt.alloc();
    let schedule = two_systems(alloc).expect(&rt, "a schedule");
    let mut editor = crowded_editor(alloc, 16_384).expect(&rt, "an editor");
    let gate = TwoWorkers::new();
    let made = advance_past(&rt, alloc, &mut editor, &schedule, &gate);
    assert_eq!(rt; refusal_of(made), None);
    assert!(rt; gate.have_met());
    Ok(())
}

#[test]
fn an_editor_refuses_a_schedule_for_other_kinds(rt: HostRuntime) -> Result<(), Fail> {
    let mut editor = empty_editor(rt.alloc()).expect(&rt, "an editor");
    editor_refuses(&rt, rt.alloc(), &mut editor);
    Ok(())
}

/// Whether a frame was done, and spawned just so many entities, the first ones of a world.
fn has_spawned(reply: &Result<Reply, Stopped>, count: u32) -> bool {
    match reply {
        Ok(Reply::Done(spawned)) => {
            spawned.len() == count as usize
                && spawned.iter().zip(0..count).all(|(entity, index)| {
                    let generation = 1;
                    *entity == Entity { index, generation }
                })
        }
        _ => false,
    }
}

/// Whether the one row is the first entity's, with the number 5, added and changed at tick 1.
fn is_first_row(rows: &Result<Vec<Row>, AllocError>) -> bool {
    let Ok(rows) = rows else {
        return false;
    };
    let [row] = rows.as_slice() else {
        return false;
    };
    let first = Entity {
        index: 0,
        generation: 1,
    };
    match row.cells.get(0) {
        Some(cell) => {
            row.entity == first
                && matches!(cell.value, Value::Int(5))
                && (cell.added, cell.changed) == (1, 1)
        }
        None => false,
    }
}

/// A frame spawns the first entity, with the number 5, and the session lists it.
fn spawn_first<'a, R: Threads + Wait + Abort + Sync>(
    rt: &R,
    alloc: Global,
    session: Session<'a>,
) -> Session<'a>
    ensures { IsSame session.entry result }
{
    let queues = spawning(alloc, 5).expect(rt, "queues");
    let (session, reply) = session.submit(rt, alloc, queues);
    assert!(rt; has_spawned(&reply, 1));
    let (session, rows) = session.ask(rt, alloc, &RowsOf(ALL));
    assert!(rt; is_first_row(&rows));
    session
}

/// The first session submits a frame, the second undoes it, and they meet.
fn submit_and_undo<'a, R: Threads + Wait + Abort + Sync>(
    rt: &R,
    alloc: Global,
    zero: Session<'a>,
    one: Session<'a>,
) -> (Session<'a>, Session<'a>)
    requires { one.lock ≡ zero.lock }
    ensures { IsSame zero.entry result.0 × IsSame one.entry result.1 }
{
    let zero = spawn_first(rt, alloc, zero);
    let (one, reply) = one.undo(rt, alloc);
    assert!(rt; tells(reply, Told::Undone));
    Session::meet(zero, one)
}

/// Alone inside, the calls that don't wait do their work.
fn try_calls<'a>(rt: &impl Abort, alloc: Global, session: Session<'a>) -> Session<'a>
    ensures { IsSame session.entry result }
{
    let schedule = empty_schedule(alloc).expect(rt, "a schedule");
    let (session, cursor) = session.try_ask(alloc, &CursorNow);
    let cursor = cursor.expect(rt, "an answer");
    assert_eq!(rt; (cursor.rewinds, cursor.tick), (1, 0));
    let (session, reply) = session.try_submit(alloc, Vec::new(alloc));
    assert!(rt; has_spawned(&reply, 0));
    let (session, reply) = session.try_advance(alloc, schedule);
    assert!(rt; has_spawned(&reply, 0));
    let (session, reply) = session.try_undo(alloc);
    assert!(rt; tells(reply, Told::Undone));
    let (session, reply) = session.try_redo(alloc);
    assert!(rt; tells(reply, Told::Redone));
    session
}

/// Two sessions share a state. The pass of the first, or of the second.
fn share<R: Threads + Wait + Abort + Sync>(
    rt: &R,
    alloc: Global,
    lock: &WordLock<State>,
    passes: Vec<Pass<State>>,
    second: bool,
) -> Pass<State>
    requires { All (IsPassOf lock.now) passes.items }
    ensures { IsPassOf lock.now result }
{
    let mut passes = passes;
    let one = Session::new(lock, passes.pop().expect(rt, "a second pass"));
    let zero = Session::new(lock, passes.pop().expect(rt, "a first pass"));
    let (zero, one) = submit_and_undo(rt, alloc, zero, one);
    let zero = try_calls(rt, alloc, zero);
    let (zero, one) = (zero.into_pass(), one.into_pass());
    if second { one } else { zero }
}

fn was_shared(rt: &impl Abort, state: &State) {
    let wanted = [0, 1, 0, 0, 0, 0];
    assert_eq!(rt; state.history().len(), wanted.len());
    for (entry, session) in state.history().iter().zip(wanted) {
        assert_eq!(rt; entry.session, session);
    }
    assert_eq!(rt;
        (state.editor().rewinds(), state.editor().world().tick()),
        (2, 2)
    );
}

/// The state that two sessions have shared, by the pass of the first, or of the second.
fn shared<R: Threads + Wait + Abort + Sync>(rt: &R, alloc: Global, second: bool) -> State {
    let (lock, passes) = new_lock(rt, alloc, 2, 1000);
    let pass = share(rt, alloc, &lock, passes, second);
    lock.finish(pass)
        .expect(rt, "the state, once all have ended")
}

#[test]
fn two_sessions_share_a_state(rt: HostRuntime) -> Result<(), Fail> {
    for second in [false, true] {
        let state = shared(&rt, rt.alloc(), second);
        try_state(&rt, rt.alloc(), state, Trial::WasShared);
    }
    Ok(())
}

#[test]
fn an_entry_of_one_spawn_takes_at_most_320_bytes(rt: HostRuntime) -> Result<(), Fail> {
    let lists = size_of::<Queue>() + size_of::<Command>() + size_of::<(u8, Value)>();
    let entry = size_of::<Entry>() + lists + size_of::<Entity>();
    assert!(rt; entry <= 320);
    Ok(())
}

/// The state that so many sessions at once have made by their work, once all have met.
fn worked<R: Threads + Wait + Abort + Sync>(
    rt: &R,
    alloc: Global,
    sessions: u32,
    work: Work,
) -> State
    requires { (0 < sessions) × (sessions ≤ 64) }
{
    let (lock, passes) = new_lock(rt, alloc, sessions, 1000);
    let ended = work_at_once(rt, alloc, &lock, passes, work).expect(rt, "threads");
    let (pass, listed) = meet_in_turn(&lock, ended).expect(rt, "a pass");
    assert!(rt; listed || work.turns);
    lock.finish(pass)
        .expect(rt, "the state, once all have ended")
}

fn has_frames(rt: &impl Abort, alloc: Global, state: &State, sessions: u32, frames: u32) {
    let all = u64::from(sessions).saturating_mul(u64::from(frames));
    assert_eq!(rt; state.history().len() as u64, all);
    assert_eq!(rt; state.editor().world().tick(), all);
    let rows = rows(alloc, state.editor().world(), ALL).expect(rt, "rows");
    assert_eq!(rt; rows.len() as u64, all);
    for session in 0..sessions {
        assert_eq!(rt;
            frames_in_order(state.history(), session),
            Some(i64::from(frames))
        );
    }
}

/// So many sessions at once submit so many frames each.
fn submit_at_once<R: Threads + Wait + Abort + Sync>(
    rt: &R,
    alloc: Global,
    sessions: u32,
    frames: u32,
)
    requires { (0 < sessions) × (sessions ≤ 64) }
{
    let work = Work {
        frames: i64::from(frames),
        turns: false,
    };
    let state = worked(rt, alloc, sessions, work);
    try_state(rt, alloc, state, Trial::HasFrames { sessions, frames });
}

#[test]
fn two_sessions_submit_at_once(rt: HostRuntime) -> Result<(), Fail> {
    submit_at_once(&rt, rt.alloc(), 2, 50);
    Ok(())
}

#[test]
fn eight_sessions_submit_at_once(rt: HostRuntime) -> Result<(), Fail> {
    submit_at_once(&rt, rt.alloc(), 8, 100);
    Ok(())
}

/// How many calls of a history have the same reply once they are performed on a new state, and what that comes to.
fn replayed(rt: &impl Abort, alloc: Global, history: &[Entry]) -> (u32, String) {
    let mut state = empty_state(alloc, 1000).expect(rt, "a state");
    let same = play_again(alloc, &mut state, history);
    let text = shown(alloc, &state).expect(rt, "a text");
    (same, text)
}

fn history_replays(rt: &impl Abort, alloc: Global, state: &State) {
    assert_eq!(rt; state.history().len(), 120);
    let (same, text) = replayed(rt, alloc, state.history());
    assert_eq!(rt; same, 120);
    let wanted = shown(alloc, state).expect(rt, "a text");
    assert_eq!(rt; text, wanted);
}

#[test]
fn a_history_played_again_leads_to_the_same(rt: HostRuntime) -> Result<(), Fail> {
    let work = Work {
        frames: 10,
        turns: true,
    };
    let state = worked(&rt, rt.alloc(), 3, work);
    try_state(&rt, rt.alloc(), state, Trial::Replays);
    Ok(())
}

/// What is tried through the passes of a lock.
#[derive(Clone, Copy)]
enum Inside {
    /// Eight queries are inside together.
    Together,
    /// Calls that don't wait are tried beside a session that stays inside, by a change or by a query.
    Beside(bool),
    /// A session lists what came since.
    Since,
}

impl Inside {
    fn run<R: Threads + Wait + Abort + Sync>(
        self,
        rt: &R,
        alloc: Global,
        lock: &WordLock<State>,
        passes: Vec<Pass<State>>,
    )
        requires { All (IsPassOf lock.now) passes.items }
    {
        match self {
            Inside::Together => eight_meet(rt, alloc, lock, passes),
            Inside::Beside(changes) => are_busy(rt, alloc, lock, passes, changes),
            Inside::Since => lists_since(rt, alloc, lock, passes),
        }
    }
}

/// Tries a new lock, and drops it, which is dear to prove.
fn try_lock<R: Threads + Wait + Abort + Sync>(
    rt: &R,
    alloc: Global,
    passes: u32,
    limit: u32,
    inside: Inside,
)
    requires passes { (0 < passes) × (passes ≤ 64) }
    requires limit { (1 ≤ limit) × (limit ≤ 1048576) }
{
    let (lock, passes) = new_lock(rt, alloc, passes, limit);
    inside.run(rt, alloc, &lock, passes);
}

fn eight_meet<R: Threads + Wait + Abort + Sync>(
    rt: &R,
    alloc: Global,
    lock: &WordLock<State>,
    passes: Vec<Pass<State>>,
)
    requires { All (IsPassOf lock.now) passes.items }
{
    let meeting = Meeting {
        inside: Gate::new(),
        wanted: 8,
    };
    let came = ask_together(rt, alloc, lock, passes, &meeting).expect(rt, "threads");
    assert_eq!(rt; came.len(), 8);
    assert!(rt; came.iter().all(|came| *came));
}

#[test]
fn eight_queries_are_inside_together(rt: HostRuntime) -> Result<(), Fail> {
    try_lock(&rt, rt.alloc(), 8, 1000, Inside::Together);
    Ok(())
}

fn are_busy<R: Threads + Wait + Abort + Sync>(
    rt: &R,
    alloc: Global,
    lock: &WordLock<State>,
    passes: Vec<Pass<State>>,
    changes: bool,
)
    requires { All (IsPassOf lock.now) passes.items }
{
    let got = try_beside(rt, alloc, lock, passes, &Stay::new(changes)).expect(rt, "threads");
    assert_eq!(rt; got.len(), 2);
    assert!(rt; got.iter().all(|got| *got), "by a change: {changes}");
}

#[test]
fn a_call_that_does_not_wait_is_busy_beside_another(rt: HostRuntime) -> Result<(), Fail> {
    for changes in [true, false] {
        try_lock(&rt, rt.alloc(), 2, 9, Inside::Beside(changes));
    }
    Ok(())
}

/// The indexes of entities whose number is named, and of no other cell.
fn are_numbers(names: &Result<Vec<CellName>, Refusal>, indexes: &[u32]) -> bool {
    let Ok(names) = names else {
        return false;
    };
    names.len() == indexes.len()
        && names.iter().zip(indexes).all(|(name, index)| {
            let generation = 1;
            let index = *index;
            let entity = Entity { index, generation };
            *name == CellName { entity, kind: 0 }
        })
}

/// Spawns two entities, and advances between them. The cursor is that before the advance.
fn spawn_twice<'a, R: Threads + Wait + Abort + Sync>(
    rt: &R,
    alloc: Global,
    session: Session<'a>,
) -> (Session<'a>, Cursor) {
    let schedule = counting_schedule(alloc).expect(rt, "a schedule");
    let (session, _) = submit_one(rt, alloc, session, 5);
    let (session, cursor) = session.ask(rt, alloc, &CursorNow);
    let (session, reply) = session.advance(rt, alloc, schedule, 2);
    assert!(rt; has_spawned(&reply, 0));
    let (session, listed) = submit_one(rt, alloc, session, 6);
    assert!(rt; listed);
    (session, cursor)
}

/// What was spawned twice is listed, until an undo.
fn list_since<'a, R: Threads + Wait + Abort + Sync>(
    rt: &R,
    alloc: Global,
    session: Session<'a>,
    cursor: Cursor,
) {
    let (session, changed) = session.changed(rt, alloc, cursor, ALL);
    assert!(rt; are_numbers(&changed, &[0, 1]));
    let (session, added) = session.ask(rt, alloc, &AddedSince(cursor, ALL));
    assert!(rt; are_numbers(&added, &[1]));
    let (session, _) = session.undo(rt, alloc);
    let (session, reply) = session.redo(rt, alloc);
    assert!(rt; tells(reply, Told::Redone));
    let (_, changed) = session.changed(rt, alloc, cursor, ALL);
    assert!(rt; matches!(changed, Err(refusal) if refusal.fault == Fault::Rewound(1)));
}

fn lists_since<R: Threads + Wait + Abort + Sync>(
    rt: &R,
    alloc: Global,
    lock: &WordLock<State>,
    passes: Vec<Pass<State>>,
)
    requires { All (IsPassOf lock.now) passes.items }
{
    let mut passes = passes;
    let pass = passes.pop().expect(rt, "a pass");
    let (session, cursor) = spawn_twice(rt, alloc, Session::new(lock, pass));
    list_since(rt, alloc, session, cursor);
}

#[test]
fn a_session_lists_what_came_since(rt: HostRuntime) -> Result<(), Fail> {
    try_lock(&rt, rt.alloc(), 1, 1000, Inside::Since);
    Ok(())
}
