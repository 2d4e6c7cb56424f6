//! Devices whose interrupted calls are made again: an interruption is never seen, another error has
//! its kind, and each call reaches the device.

use crate::fixtures::{Failing, Sink, Source};
use devices::Retried;
use std::io::{ErrorKind, Read, Result, Write};

// Kinds of errors of which an interruption alone is tried again.
const KINDS: [ErrorKind; 6] = [
    ErrorKind::Interrupted,
    ErrorKind::TimedOut,
    ErrorKind::WouldBlock,
    ErrorKind::BrokenPipe,
    ErrorKind::PermissionDenied,
    ErrorKind::UnexpectedEof,
];

// Whether a call returned this, or an error of this kind where nothing is due.
fn is_due<T: PartialEq + Drop>(found: Result<T>, due: Option<T>, kind: ErrorKind) -> bool {
    match found {
        Ok(answer) => due == Some(answer),
        Err(error) => due.is_none() && error.kind() == kind,
    }
}

// Whether three reads of one byte return `abc` where the call of number `bad` fails so. After an
// interruption no read fails, and the device has one call more.
fn reads(bad: usize, kind: ErrorKind) -> bool {
    let mut reader = Retried::new(Source::new("abc", 1, bad).of_kind(kind));
    let is_seen = kind != ErrorKind::Interrupted;
    let mut is_well = true;
    for (call, byte) in [(1, b'a'), (2, b'b'), (3, b'c')] {
        let mut place = [0];
        if is_seen && call == bad {
            is_well &= is_due(reader.read(&mut place), None, kind);
        }
        is_well &= is_due(reader.read(&mut place), Some(1), kind) && place == [byte];
    }
    is_well && reader.device().calls == 4
}

#[test]
fn a_read_is_tried_again_where_a_signal_interrupts_it(rt: HostRuntime) {
    for kind in KINDS {
        for bad in 1..=3 {
            assert!(rt; reads(bad, kind), "{bad}");
        }
    }
}

// Whether three writes of one byte are taken where the call of number `bad` fails so.
fn writes(bad: usize, kind: ErrorKind) -> bool {
    let mut writer = Retried::new(Sink::new(1, Failing::Error(bad)).of_kind(kind));
    let is_seen = kind != ErrorKind::Interrupted;
    let mut is_well = true;
    for (call, piece) in [(1, b"a"), (2, b"b"), (3, b"c")] {
        if is_seen && call == bad {
            is_well &= is_due(writer.write(piece), None, kind);
        }
        is_well &= is_due(writer.write(piece), Some(1), kind);
    }
    is_well && writer.device().calls == 4 && writer.device().holds("abc")
}

#[test]
fn a_write_is_tried_again_where_a_signal_interrupts_it(rt: HostRuntime) {
    for kind in KINDS {
        for bad in 1..=3 {
            assert!(rt; writes(bad, kind), "{bad}");
        }
    }
}

#[test]
fn a_flush_reaches_the_device(rt: HostRuntime) {
    for kind in KINDS {
        let mut writer = Retried::new(Sink::new(1, Failing::FlushOnce).of_kind(kind));
        if kind != ErrorKind::Interrupted {
            assert!(rt; is_due(writer.flush(), None, kind) && writer.device().flushes == 1);
        }
        assert!(rt; is_due(writer.flush(), Some(()), kind) && writer.device().flushes == 2);
        assert!(rt; is_due(writer.flush(), Some(()), kind) && writer.device().flushes == 3);
    }
}
