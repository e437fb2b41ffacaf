//! Runs whose reader or writer fails at each call in turn, and what a run leaves behind.
ghost use Rattle.std.specs.Prelude.{◌<◌};

use crate::left::state_left;
use scene_app::{AppFault, run_script};
use scene_lower_tests::{Pieces, Taker};
use scene_session::State;
use scene_streams::{Sink, Source};
use std::alloc::Global;
use std::io::ErrorKind;
use std::process::Abort;
use std::sync::Wait;
use std::test::Fail;
use std::thread::Threads;

/// A script, of which 6 bytes a call come in 7 calls, with one more for its end.
const SCRIPT: &str = "kind A Int\nspawn A=5\nundo\nredo\nshow\n";

const OUTPUT: &str =
    "ok\ndone 0v1\nundone\nredone\ntick 1\ngens 1\nfree\ntable A\nrow 0v1 A=5@1/1\n";

/// The reader of the script that fails at one call.
fn script_that_fails(fails_at: u32, kind: ErrorKind) -> Source<Pieces<'static>> {
    Source::new(Pieces::new(SCRIPT.as_bytes(), 6, fails_at, kind))
}

/// Runs a script on one thread. How many of its lines are bad.
fn bad_lines<R: Threads + Wait + Sync>(
    rt: &R,
    alloc: Global,
    source: &mut Source<Pieces<'static>>,
    sink: &mut Sink<Taker>,
) -> Result<u32, AppFault> {
    match run_script(rt, alloc, 1, source, sink) {
        Ok(end) => Ok(end.bad_lines),
        Err(fault) => Err(fault),
    }
}

/// A run whose reader fails at this call; the script takes seven.
fn read_is_tried<R: Threads + Wait + Abort + Sync>(rt: &R, alloc: Global, fails_at: u32) {
    let mut source = script_that_fails(fails_at, ErrorKind::Other);
    let mut sink = Sink::new(Taker::new(alloc, 0, true));
    let end = bad_lines(rt, alloc, &mut source, &mut sink);
    let failed = fails_at < 8;
    let wanted = if failed {
        Err(AppFault::ReadFault)
    } else {
        Ok(0)
    };
    assert_eq!(rt; end, wanted, "call {fails_at}");
    assert_eq!(rt; source.has_failed(), failed, "call {fails_at}");
    let written = if failed { "" } else { OUTPUT };
    assert_eq!(rt;
        sink.get_ref().taken(),
        written.as_bytes(),
        "call {fails_at}"
    );
    assert_eq!(rt; sink.get_ref().calls() == 0, failed, "call {fails_at}");
}

#[test]
fn a_failed_read_writes_nothing(rt: HostRuntime) -> Result<(), Fail> {
    for fails_at in 1..=8 {
        read_is_tried(&rt, rt.alloc(), fails_at);
    }
    Ok(())
}

/// A run whose reader is interrupted at this call.
fn interruption_is_tried<R: Threads + Wait + Abort + Sync>(rt: &R, alloc: Global, fails_at: u32) {
    let mut source = script_that_fails(fails_at, ErrorKind::Interrupted);
    let mut sink = Sink::new(Taker::new(alloc, 0, true));
    let end = bad_lines(rt, alloc, &mut source, &mut sink);
    assert_eq!(rt; end, Ok(0), "call {fails_at}");
    assert_eq!(rt; source.get_ref().calls(), 8, "call {fails_at}");
    assert_eq!(rt;
        sink.get_ref().taken(),
        OUTPUT.as_bytes(),
        "call {fails_at}"
    );
}

#[test]
fn an_interrupted_read_is_made_again(rt: HostRuntime) -> Result<(), Fail> {
    for fails_at in 1..=7 {
        interruption_is_tried(&rt, rt.alloc(), fails_at);
    }
    Ok(())
}

/// How many calls of the writer the output takes.
fn write_calls() -> usize {
    OUTPUT.len().div_ceil(2)
}

/// A run whose writer fails, or takes nothing, after this many calls.
fn write_is_tried<R: Threads + Wait + Abort + Sync>(
    rt: &R,
    alloc: Global,
    before: usize,
    fails: bool,
)
    requires { before < 1000 }
{
    let mut source = script_that_fails(0, ErrorKind::Other);
    let mut sink = Sink::new(Taker::new(alloc, before as u32 + 1, fails));
    let end = bad_lines(rt, alloc, &mut source, &mut sink);
    let failed = before < write_calls();
    let wanted = if failed {
        Err(AppFault::WriteFault)
    } else {
        Ok(0)
    };
    assert_eq!(rt; end, wanted, "after {before} calls");
    assert_eq!(rt; sink.has_failed(), failed, "after {before} calls");
    let length = OUTPUT.len().min(2 * before);
    assert_eq!(rt;
        sink.get_ref().taken(),
        &OUTPUT.as_bytes()[..length],
        "after {before} calls"
    );
}

#[test]
fn a_stopped_write_leaves_a_prefix_of_the_output(rt: HostRuntime) -> Result<(), Fail> {
    for before in 0..=OUTPUT.len().div_ceil(2) {
        write_is_tried(&rt, rt.alloc(), before, false);
        write_is_tried(&rt, rt.alloc(), before, true);
    }
    Ok(())
}

#[test]
fn a_fault_of_a_run_says_its_number_and_name(rt: HostRuntime) -> Result<(), Fail> {
    let text = |fault: AppFault| fault.to_string(rt.alloc());
    assert_eq!(rt; text(AppFault::NoMemory)?.as_str(), "fault 20 NoMemory");
    assert_eq!(rt; text(AppFault::ReadFault)?.as_str(), "fault 54 ReadFault");
    assert_eq!(rt; text(AppFault::WriteFault)?.as_str(), "fault 55 WriteFault");
    assert_eq!(rt; text(AppFault::TooLong)?.as_str(), "fault 56 TooLong");
    Ok(())
}

/// The calls of two sessions, and a line that is bad.
const SESSIONS: &str = "kind A Int\nas 3\nspawn A=1\nas 0\nget 0v1\nundo\nhistory\nas 8\n";

/// The state that the calls of the sessions leave.
fn state_of_sessions<R: Threads + Wait + Abort + Sync>(rt: &R, alloc: Global) -> State {
    let mut source = Source::new(Pieces::new(SESSIONS.as_bytes(), 64, 0, ErrorKind::Other));
    let mut sink = Sink::new(Taker::new(alloc, 0, true));
    let end = run_script(rt, alloc, 1, &mut source, &mut sink);
    let end = end.expect(rt, "the end of the run");
    assert_eq!(rt; end.bad_lines, 1);
    state_left(end).expect(rt, "the state, since nobody else has a pass")
}

/// It has the calls of sessions 3 and 0.
fn has_calls(rt: &impl Abort, state: &State) {
    assert_eq!(rt; state.history().len(), 2);
    for (entry, session) in state.history().iter().zip([3, 0]) {
        assert_eq!(rt; entry.session, session);
    }
    assert_eq!(rt; state.editor().rewinds(), 1);
}

#[test]
fn a_run_leaves_the_calls_of_its_sessions(rt: HostRuntime) -> Result<(), Fail> {
    let state = state_of_sessions(&rt, rt.alloc());
    has_calls(&rt, &state);
    Ok(())
}
