//! Devices for tests, which allocate no memory, and runs of scripts over them.

use crate::{Counted, RunFault, run};
use std::alloc::Global;
use std::io;
use std::io::{ErrorKind, Read, Write};
use std::process::Abort;

pub(crate) const STORED: &str =
    "image 3 2 4 1 2 3 4 5 6 7 8 9\nget 0 1,0,2,2/1,0,1,2 0 1\nput 0 1,1,2,1 0 0 9\nget 0 - 1 1\n";

pub(crate) const STORED_OUTPUT: &str = "pixel 7\ndone\npixel 9\nimage 3 2 4 1 2 3 4 5 9 7 8 9\n";

// Gives at most `most` bytes of its text a call, and fails at the call of number `bad_call`, from 1,
// by an error of its kind.
#[derive(Drop)]
pub(crate) struct Source<'a> {
    text: &'a [u8],
    most: usize,
    bad_call: usize,
    kind: ErrorKind,
    pub(crate) calls: usize,
}

impl<'a> Source<'a> {
    pub(crate) fn new(text: &'a str, most: usize, bad_call: usize) -> Self {
        Source {
            text: text.as_bytes(),
            most,
            bad_call,
            kind: ErrorKind::Interrupted,
            calls: 0,
        }
    }

    // The same with errors of another kind.
    pub(crate) fn of_kind(self, kind: ErrorKind) -> Self {
        Source { kind, ..self }
    }
}

impl<'a> Read for Source<'a> {
    fn read(&mut self, buf: &mut [u8]) -> io::Result<usize> {
        self.calls = self.calls.saturating_add(1);
        if self.calls == self.bad_call {
            return Err(io::Error::from(self.kind));
        }
        let count = self.text.len().min(self.most).min(buf.len());
        let text = self.text;
        buf[..count].copy_from_slice(&text[..count]);
        self.text = &text[count..];
        Ok(count)
    }
}

// What a writer returns where it fails.
#[derive(Clone, Copy, PartialEq, Eq)]
pub(crate) enum Failing {
    Never,
    // An error at the write of this number, from 1.
    Error(usize),
    // No byte is taken at the write of this number.
    Nothing(usize),
    Flush,
    // Only the first flush fails.
    FlushOnce,
}

// Takes at most `most` bytes a call, takes no memory, and fails as it is told to.
#[derive(Drop)]
pub(crate) struct Sink {
    held: [u8; 256],
    len: usize,
    most: usize,
    failing: Failing,
    kind: ErrorKind,
    pub(crate) calls: usize,
    pub(crate) flushes: usize,
}

impl Sink {
    pub(crate) fn new(most: usize, failing: Failing) -> Self {
        Sink {
            held: [0; 256],
            len: 0,
            most,
            failing,
            kind: ErrorKind::Interrupted,
            calls: 0,
            flushes: 0,
        }
    }

    // The same with errors of another kind.
    pub(crate) fn of_kind(self, kind: ErrorKind) -> Self {
        Sink { kind, ..self }
    }

    pub(crate) fn holds(&self, text: &str) -> bool {
        match self.held.get(..self.len) {
            Some(held) => held == text.as_bytes(),
            None => false,
        }
    }
}

impl Write for Sink {
    fn write(&mut self, buf: &[u8]) -> io::Result<usize> {
        self.calls = self.calls.saturating_add(1);
        if self.failing == Failing::Error(self.calls) {
            return Err(io::Error::from(self.kind));
        }
        if self.failing == Failing::Nothing(self.calls) {
            return Ok(0);
        }
        let Some(room) = self.held.get_mut(self.len..) else {
            return Ok(0);
        };
        let count = buf.len().min(self.most).min(room.len());
        room[..count].copy_from_slice(&buf[..count]);
        self.len = self.len.saturating_add(count);
        Ok(count)
    }

    fn flush(&mut self) -> io::Result<()> {
        self.flushes = self.flushes.saturating_add(1);
        if self.failing == Failing::Flush
            || self.failing == Failing::FlushOnce && self.flushes == 1
        {
            return Err(io::Error::from(self.kind));
        }
        Ok(())
    }
}

// What is due of a run: its fault, what was written, and the failures of the reader and the writer.
#[derive(Drop)]
pub(crate) struct Due<'a> {
    pub(crate) fault: Option<RunFault>,
    pub(crate) text: &'a str,
    pub(crate) failures: [u64; 2],
}

// Runs the program, and returns the calls of the reader and of the writer, and the flushes. Where
// memory is refused nothing is written, and the test ends with that.
pub(crate) fn calls_of(
    rt: &impl Abort,
    alloc: Global,
    source: Source<'_>,
    sink: Sink,
    due: Due<'_>,
) -> Result<[usize; 3], RunFault> {
    let mut reader = Counted::new(source);
    let mut writer = Counted::new(sink);
    let fault = run(alloc, &mut reader, &mut writer).err();
    let failures = [reader.failures(), writer.failures()];
    let sink = writer.device();
    let calls = [reader.device().calls, sink.calls, sink.flushes];
    if fault == Some(RunFault::Memory) {
        assert!(rt; calls[1] == 0 && calls[2] == 0 && failures == [0, 0]);
        return Err(RunFault::Memory);
    }
    let is_due = fault == due.fault && failures == due.failures;
    assert!(rt; is_due && sink.holds(due.text), "{}", due.text);
    Ok(calls)
}
