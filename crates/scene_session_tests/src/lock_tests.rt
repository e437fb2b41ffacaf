//! The lock over a list of notes. Each runs to its end alone; those with threads answer the same whatever the schedule.
ghost use Rattle.scene_lock.specs.Pass.{IsPassOf};

use scene_lock::{Kept, Pass, WordLock};
use scene_lock_tests::{
    Count, Gate, Note, Notes, Write, WriteKnowingHow, enter_all, look_beside_wanting_write,
    look_together, meet_in_chain, take_last, try_beside_change, try_beside_look,
    write_among_readers,
};
use std::alloc::Global;
use std::process::Abort;
use std::sync::Wait;
use std::test::*;
use std::thread::Threads;

/// Alone inside, the calls that don't wait do their work: two notes are there, and then six.
fn tries_alone<R: Threads + Wait + Abort + Sync>(
    rt: &R,
    alloc: Global,
    lock: &WordLock<Notes>,
    pass: Pass<Notes>,
) -> Pass<Notes>
    requires { IsPassOf lock.now pass }
    ensures { IsPassOf lock.now result }
{
    let (pass, count) = lock.try_read(alloc, pass, &Count);
    assert_eq!(rt; count, Some(2));
    let (pass, done) = lock.try_write(alloc, pass, Write { number: 7 });
    assert_eq!(rt; done, Ok(Ok(())));
    let (pass, done) = lock.try_write(alloc, pass, Write { number: 8 });
    assert_eq!(rt; done, Ok(Ok(())));
    let (pass, done) = lock.try_write(alloc, pass, Write { number: 9 });
    assert_eq!(rt; done, Ok(Ok(())));
    let (pass, done) = lock.try_write(alloc, pass, Write { number: 10 });
    assert_eq!(rt; done, Ok(Ok(())));
    pass
}

/// A new lock is free, and each of two passes writes a note.
fn write_in_turn<R: Threads + Wait + Abort + Sync>(
    rt: &R,
    alloc: Global,
    lock: &WordLock<Notes>,
    zero: Pass<Notes>,
    one: Pass<Notes>,
) -> (Pass<Notes>, Pass<Notes>)
    requires zero { IsPassOf lock.now zero }
    requires one { IsPassOf lock.now one }
    ensures zero { IsPassOf lock.now result.0 }
    ensures one { IsPassOf lock.now result.1 }
{
    let (zero, count) = lock.try_read(alloc, zero, &Count);
    assert_eq!(rt; count, Some(0));
    let (zero, done) = lock.write(rt, alloc, zero, Write { number: 5 });
    assert_eq!(rt; done, Ok(()));
    let (zero, count) = lock.read(rt, alloc, zero, &Count);
    assert_eq!(rt; count, 1);
    let (one, done) = lock.write(rt, alloc, one, Write { number: 6 });
    assert_eq!(rt; done, Ok(()));
    lock.meet(zero, one)
}

/// The notes are these, each of a session with its number.
fn has_notes(rt: &impl Abort, notes: &Notes, wanted: &[(u32, u64)]) {
    assert_eq!(rt; notes.history().len(), wanted.len());
    for (note, (session, number)) in notes.history().iter().zip(wanted) {
        let (session, number) = (*session, *number);
        assert_eq!(rt; *note, Note { session, number });
        assert_eq!(rt; Notes::session_of(note), session);
    }
}

#[test]
fn two_sessions_see_one_history(rt: HostRuntime) -> Result<(), Fail> {
    let alloc = rt.alloc();
    let (lock, mut passes) = WordLock::new(alloc, Notes::new(alloc, 6), 2)?;
    let one = take_last(&lock, &mut passes).expect(&rt, "a second pass");
    let zero = take_last(&lock, &mut passes).expect(&rt, "a first pass");
    assert_eq!(rt; (zero.session(), one.session()), (0, 1));
    let (zero, one) = write_in_turn(&rt, alloc, &lock, zero, one);
    let zero = tries_alone(&rt, alloc, &lock, zero);
    let (_, stopped) = lock.write(&rt, alloc, one, Write { number: 11 });
    assert_eq!(rt; stopped, Err(Write { number: 11 }));
    let notes = lock
        .finish(zero)
        .expect(&rt, "the state, once all have ended");
    let wanted = [(0, 5), (1, 6), (0, 7), (0, 8), (0, 9), (0, 10)];
    has_notes(&rt, &notes, wanted.as_slice());
    Ok(())
}

/// A session wrote the numbers from 0 to 999, in their order.
fn has_a_thousand(rt: &impl Abort, alloc: Global, notes: &Notes, session: u32) {
    let numbers = notes.numbers_of(alloc, session).expect(rt, "memory");
    assert_eq!(rt; numbers.len(), 1000, "session {session}");
    for (number, wanted) in numbers.iter().zip(0..1000u64) {
        assert_eq!(rt; *number, wanted, "session {session}");
    }
}

/// The passes are those of the sessions from 0 to 7, in their order.
fn are_eight(rt: &impl Abort, passes: &[Pass<Notes>]) {
    assert_eq!(rt; passes.len(), 8);
    for (pass, wanted) in passes.iter().zip(0..8u32) {
        assert_eq!(rt; pass.session(), wanted);
    }
}

#[test]
fn eight_sessions_enter_one_history(rt: HostRuntime) -> Result<(), Fail> {
    let alloc = rt.alloc();
    let (lock, passes) = WordLock::new(alloc, Notes::new(alloc, 1_000_000), 8)?;
    let passes = enter_all(&rt, alloc, &lock, passes, 1000)?;
    let passes = lock.meet_all(passes);
    are_eight(&rt, passes.as_slice());
    let pass = meet_in_chain(&lock, passes).expect(&rt, "a pass");
    let notes = lock
        .finish(pass)
        .expect(&rt, "the state, once all have ended");
    assert_eq!(rt; notes.history().len(), 8000);
    for session in 0..8 {
        has_a_thousand(&rt, alloc, &notes, session);
    }
    Ok(())
}

#[test]
fn looks_are_inside_together(rt: HostRuntime) -> Result<(), Fail> {
    let alloc = rt.alloc();
    for count in [2, 8] {
        let (lock, passes) = WordLock::new(alloc, Notes::new(alloc, 1), count)?;
        let came = look_together(&rt, alloc, &lock, passes, &Gate::new())?;
        assert_eq!(rt; came.len(), count as usize);
        assert!(rt; came.iter().all(|came| *came), "{count} looks");
    }
    Ok(())
}

#[test]
fn busy_while_a_change_is_held(rt: HostRuntime) -> Result<(), Fail> {
    let alloc = rt.alloc();
    let (lock, mut passes) = WordLock::new(alloc, Notes::new(alloc, 9), 2)?;
    let other = take_last(&lock, &mut passes).expect(&rt, "a second pass");
    let one = take_last(&lock, &mut passes).expect(&rt, "a first pass");
    let got = try_beside_change(&rt, alloc, &lock, one, other);
    assert_eq!(rt; got.changed, Ok(()));
    assert_eq!(rt; got.count, None);
    assert_eq!(rt; got.written, Err(Write { number: 7 }));
    Ok(())
}

#[test]
fn a_try_that_is_turned_away_shuts_nobody_out(rt: HostRuntime) -> Result<(), Fail> {
    let alloc = rt.alloc();
    let (lock, mut passes) = WordLock::new(alloc, Notes::new(alloc, 9), 2)?;
    let other = take_last(&lock, &mut passes).expect(&rt, "a second pass");
    let looker = take_last(&lock, &mut passes).expect(&rt, "a first pass");
    let got = try_beside_look(&rt, alloc, &lock, looker, other);
    assert!(rt; got.stayed);
    assert_eq!(rt; got.written, Err(Write { number: 7 }));
    assert_eq!(rt; got.count, Some(0));
    Ok(())
}

#[test]
fn only_a_write_may_start_threads(rt: HostRuntime) -> Result<(), Fail> {
    let alloc = rt.alloc();
    let (lock, mut passes) = WordLock::new(alloc, Notes::new(alloc, 9), 1)?;
    let pass = take_last(&lock, &mut passes).expect(&rt, "a pass");
    let (pass, done) = lock.write(&rt, alloc, pass, WriteKnowingHow { number: 1 });
    assert_eq!(rt; done, Ok(true));
    let (_, done) = lock.try_write(alloc, pass, WriteKnowingHow { number: 2 });
    assert_eq!(rt; done, Ok(Ok(false)));
    Ok(())
}

#[test]
fn a_write_that_waits_shuts_new_looks_out(rt: HostRuntime) -> Result<(), Fail> {
    let alloc = rt.alloc();
    let (lock, mut passes) = WordLock::new(alloc, Notes::new(alloc, 9), 3)?;
    let other = take_last(&lock, &mut passes).expect(&rt, "a third pass");
    let writer = take_last(&lock, &mut passes).expect(&rt, "a second pass");
    let looker = take_last(&lock, &mut passes).expect(&rt, "a first pass");
    let (shut_out, stayed, written) = look_beside_wanting_write(
        &rt, alloc, &lock, looker, writer, other,
    );
    assert!(rt; shut_out);
    assert!(rt; stayed);
    assert_eq!(rt; written, Ok(()));
    Ok(())
}

#[test]
fn a_writer_gets_in_among_readers(rt: HostRuntime) -> Result<(), Fail> {
    let alloc = rt.alloc();
    let (lock, passes) = WordLock::new(alloc, Notes::new(alloc, 1_000_000), 5)?;
    let ended = write_among_readers(&rt, alloc, &lock, passes, 100)?;
    assert_eq!(rt; ended.len(), 5);
    assert!(rt; ended.iter().all(|ended| *ended));
    Ok(())
}
