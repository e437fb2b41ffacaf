//! Readers and writers that fail, at the limits and at each call in turn.
use crate::streams::Taker;
use scene_streams::{MOST_BYTES, MOST_TURNS, ReadError, Sink, Source};
use std::alloc::Global;
use std::io;
use std::io::{ErrorKind, Read};

/// Gives so many spaces, `step` a call, and fails at one call.
#[derive(Drop)]
struct Spaces {
    left: usize,
    step: usize,
    calls: u32,
    fails_at: u32,
    kind: ErrorKind,
}

impl Read for Spaces {
    fn read(&mut self, buf: &mut [u8]) -> io::Result<usize> {
        self.calls = self.calls.saturating_add(1);
        if self.calls == self.fails_at {
            return Err(io::Error::from(self.kind));
        }
        let n = self.left.min(self.step).min(buf.len());
        buf[..n].fill(b' ');
        self.left -= n;
        Ok(n)
    }
}

/// A source of so many spaces that fails at one call, from 1, or at none for 0.
fn source_of(left: usize, step: usize, fails_at: u32, kind: ErrorKind) -> Source<Spaces> {
    Source::new(Spaces {
        left,
        step,
        calls: 0,
        fails_at,
        kind,
    })
}

/// Whether a read answers so many bytes, or this error.
fn answers(alloc: Global, source: &mut Source<Spaces>, wanted: Result<usize, ReadError>) -> bool {
    match source.read_all(alloc) {
        Ok(bytes) => wanted == Ok(bytes.len()),
        Err(error) => wanted == Err(error),
    }
}

/// Whether a source has made so many calls of its reader, each a turn, and whether it has failed.
fn has_made(source: &Source<Spaces>, calls: u32, failed: bool) -> bool {
    source.get_ref().calls == calls
        && source.turns_left() == MOST_TURNS.saturating_sub(calls)
        && source.has_failed() == failed
}

#[test]
fn reads_within_the_limits(rt: HostRuntime) {
    let too_long = Err(ReadError::TooLong);
    let turns = MOST_TURNS as usize;
    let cases = [
        (MOST_BYTES, MOST_BYTES, Ok(MOST_BYTES)),
        (MOST_BYTES + 1, MOST_BYTES, too_long),
        (turns - 1, 1, Ok(turns - 1)),
        (turns, 1, too_long),
    ];
    for (length, step, wanted) in cases {
        let mut source = source_of(length, step, 0, ErrorKind::Other);
        assert!(rt; answers(rt.alloc(), &mut source, wanted), "read {length}");
        assert!(rt;
            has_made(&source, source.get_ref().calls, false),
            "{length}"
        );
    }
}

#[test]
fn a_source_without_turns_reads_no_more(rt: HostRuntime) {
    let too_long = Err(ReadError::TooLong);
    let mut source = source_of(MOST_TURNS as usize + 1, 1, 0, ErrorKind::Other);
    for _ in 0..2 {
        assert!(rt; answers(rt.alloc(), &mut source, too_long));
        assert!(rt; has_made(&source, MOST_TURNS, false));
    }
}

/// Whether a source of 1000 spaces, 100 a call, whose reader fails at one of its first 11 calls, fails then and stays
/// so without a further call.
fn fails_for_good(alloc: Global, fails_at: u32) -> bool {
    let fault = Err(ReadError::Fault);
    let mut source = source_of(1000, 100, fails_at, ErrorKind::Other);
    let failed = answers(alloc, &mut source, fault) && has_made(&source, fails_at, true);
    let again = answers(alloc, &mut source, fault) && has_made(&source, fails_at, true);
    failed && again && source.into_inner().calls == fails_at
}

/// Whether such a source, which is interrupted at one call, or fails at none, reads all, with so many calls.
fn reads_all(alloc: Global, fails_at: u32, kind: ErrorKind, calls: u32) -> bool {
    let mut source = source_of(1000, 100, fails_at, kind);
    answers(alloc, &mut source, Ok(1000)) && has_made(&source, calls, false)
}

#[test]
fn a_failed_call_is_a_fault_and_stays_one(rt: HostRuntime) {
    for fails_at in 1u32..=11 {
        assert!(rt; fails_for_good(rt.alloc(), fails_at), "call {fails_at}");
    }
    assert!(rt; reads_all(rt.alloc(), 12, ErrorKind::Other, 11));
}

#[test]
fn an_interrupted_call_is_made_again_and_counts(rt: HostRuntime) {
    for fails_at in 1u32..=11 {
        assert!(rt;
            reads_all(rt.alloc(), fails_at, ErrorKind::Interrupted, 12),
            "interrupted at {fails_at}"
        );
    }
    assert!(rt; reads_all(rt.alloc(), 12, ErrorKind::Interrupted, 11));
}

/// Whether the next read of a source gives this text.
fn gives(alloc: Global, source: &mut Source<&[u8]>, text: &str) -> bool {
    match source.read_all(alloc) {
        Ok(found) => found.as_slice() == text.as_bytes(),
        Err(_) => false,
    }
}

#[test]
fn a_source_gives_the_bytes_of_its_reader(rt: HostRuntime) {
    let mut source = Source::new(&b"spawn A=1\n"[..]);
    for text in ["spawn A=1\n", ""] {
        assert!(rt; gives(rt.alloc(), &mut source, text), "{text}");
    }
    assert_eq!(rt; source.turns_left(), MOST_TURNS - 3);
}

/// A sink whose writer stops at one call, from 1, or at none for 0.
fn slow_sink(alloc: Global, stops_at: u32, fails: bool) -> Sink<Taker> {
    Sink::new(Taker::new(alloc, stops_at, fails))
}

/// Whether a sink whose writer stops at one call, from 1, takes just what came before it, fails, and calls the writer
/// no more.
fn stops_for_good(sink: Sink<Taker>, text: &[u8], stops_at: u32) -> bool {
    let mut sink = sink;
    let failed = sink.write_all(text).is_err() && sink.has_failed();
    let again = sink.write_all(text).is_err() && sink.write_all(b"").is_err() && sink.has_failed();
    let writer = sink.into_inner();
    let length = text.len().min(2 * (stops_at as usize).saturating_sub(1));
    failed && again && writer.calls() == stops_at && writer.taken() == &text[..length]
}

/// Writes texts one after another. Answers the number, from 0, of the first one that is refused.
fn first_refused(sink: &mut Sink<Taker>, texts: &[&str]) -> Option<usize> {
    texts
        .iter()
        .position(|text| sink.write_all(text.as_bytes()).is_err())
}

/// Whether the writer of a sink has taken just this text, and nothing failed.
fn has_taken(sink: &Sink<Taker>, text: &str) -> bool {
    !sink.has_failed() && sink.get_ref().taken() == text.as_bytes()
}

#[test]
fn writes_a_prefix_where_a_write_stops_and_then_nothing(rt: HostRuntime) {
    let text = "done 0v1\n";
    for stops_at in 1u32..=5 {
        for fails in [false, true] {
            let sink = slow_sink(rt.alloc(), stops_at, fails);
            assert!(rt;
                stops_for_good(sink, text.as_bytes(), stops_at),
                "call {stops_at}"
            );
        }
    }
    let mut sink = slow_sink(rt.alloc(), 6, true);
    assert!(rt; sink.write_all(text.as_bytes()).is_ok());
    assert!(rt; has_taken(&sink, text));
}

#[test]
fn a_sink_takes_one_text_after_another(rt: HostRuntime) {
    let mut sink = slow_sink(rt.alloc(), 0, false);
    let texts = ["spawn", "", " A=1\n"];
    assert_eq!(rt; first_refused(&mut sink, texts.as_slice()), None);
    assert!(rt; has_taken(&sink, "spawn A=1\n"));
}

#[test]
fn nothing_to_write_calls_no_writer(rt: HostRuntime) {
    let mut sink = slow_sink(rt.alloc(), 1, true);
    assert!(rt; sink.write_all(b"").is_ok());
    assert!(rt; has_taken(&sink, ""));
    assert_eq!(rt; sink.get_ref().calls(), 0);
}
