//! Readers and writers that fail at each call in turn.
use crate::texts::{MOVED, SMALL, load_name};
use scene_file::{FileFault, load_text, save};
use scene_lower_tests::{Pieces, Taker};
use scene_streams::Sink;
use scene_world::World;
use std::alloc::Global;
use std::io::ErrorKind;
use std::test::Fail;

#[test]
fn a_failed_read_is_a_read_fault(rt: HostRuntime) -> Result<(), Fail> {
    let text = SMALL.as_bytes();
    let calls = text.len() as u32 + 1;
    for fails_at in 1..=calls + 1 {
        let reader = Pieces::new(text, 1, fails_at, ErrorKind::Other);
        let wanted = if fails_at <= calls {
            "ReadFault"
        } else {
            "good"
        };
        assert_eq!(rt; load_name(rt.alloc(), reader), wanted, "call {fails_at}");
    }
    Ok(())
}

/// Saves to a writer that stops at a call, counted from 1, and whether that is told just where the text needs that
/// call, and leaves what the calls before took.
fn stops_at(alloc: Global, world: &World, text: &[u8], call: u32, fails: bool) -> bool {
    let mut sink = Sink::new(Taker::new(alloc, call, fails));
    let before = 2 * (call as usize).saturating_sub(1);
    let is_stopped = before < text.len();
    let is_told = match save(alloc, &mut sink, world) {
        Ok(()) => !is_stopped,
        Err(FileFault::WriteFault) => is_stopped,
        Err(_) => false,
    };
    is_told && sink.get_ref().taken() == &text[..text.len().min(before)]
}

#[test]
fn a_stopped_write_leaves_a_prefix_of_the_text(rt: HostRuntime) -> Result<(), Fail> {
    let world = load_text(rt.alloc(), MOVED.as_bytes())?;
    let text = MOVED.as_bytes();
    for call in 1..=text.len().div_ceil(2) as u32 + 1 {
        for fails in [false, true] {
            assert!(rt;
                stops_at(rt.alloc(), &world, text, call, fails),
                "call {call}"
            );
        }
    }
    Ok(())
}
