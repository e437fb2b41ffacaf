//! A reader and a writer that fail at one call.
use std::alloc::Global;
use std::io;
use std::io::{ErrorKind, Read, Write};

/// A reader that gives its bytes `step` a call, and answers an error at one call, which gives nothing.
#[derive(Drop)]
pub struct Pieces<'a> {
    rest: &'a [u8],
    step: usize,
    fails_at: u32,
    kind: ErrorKind,
    calls: u32,
}

impl<'a> Pieces<'a> {
    /// A reader of these bytes, whose call `fails_at`, counted from 1, fails with an error of this kind; with 0 none
    /// fails.
    pub fn new(bytes: &'a [u8], step: usize, fails_at: u32, kind: ErrorKind) -> Self {
        Pieces {
            rest: bytes,
            step,
            fails_at,
            kind,
            calls: 0,
        }
    }

    /// How many calls there were.
    pub fn calls(&self) -> u32 {
        self.calls
    }
}

impl<'a> Read for Pieces<'a> {
    fn read(&mut self, buf: &mut [u8]) -> io::Result<usize> {
        self.calls = self.calls.saturating_add(1);
        if self.calls == self.fails_at {
            return Err(io::Error::from(self.kind));
        }
        let n = self.rest.len().min(self.step).min(buf.len());
        buf[..n].copy_from_slice(&self.rest[..n]);
        self.rest = &self.rest[n..];
        Ok(n)
    }
}

/// A writer that takes at most two bytes a call, and at one call fails or takes none.
#[derive(Drop)]
pub struct Taker {
    taken: Vec<u8>,
    stops_at: u32,
    fails: bool,
    calls: u32,
}

impl Taker {
    /// A writer whose call `stops_at`, counted from 1, fails or else takes no byte; with 0 none does.
    pub fn new(alloc: Global, stops_at: u32, fails: bool) -> Self {
        Taker {
            taken: Vec::new(alloc),
            stops_at,
            fails,
            calls: 0,
        }
    }

    /// How many calls there were.
    pub fn calls(&self) -> u32 {
        self.calls
    }

    /// The bytes that were taken.
    pub fn taken(&self) -> &[u8] {
        self.taken.as_slice()
    }
}

impl Write for Taker {
    fn write(&mut self, buf: &[u8]) -> io::Result<usize> {
        self.calls = self.calls.saturating_add(1);
        if self.calls == self.stops_at {
            if self.fails {
                return Err(io::Error::from(ErrorKind::Other));
            }
            return Ok(0);
        }
        let n = buf.len().min(2);
        self.taken.extend_from_slice(&buf[..n])?;
        Ok(n)
    }

    fn flush(&mut self) -> io::Result<()> {
        Ok(())
    }
}
