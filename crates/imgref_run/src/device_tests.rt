//! Devices: that they are called as often as needed, and what is reported where one fails. The
//! scripts on which a run is tested are in the folder cases/.

use crate::fixtures::{Due, Failing, STORED, STORED_OUTPUT, Sink, Source, calls_of};
use crate::{Counted, RunFault};
use std::alloc::Global;
use std::io::{ErrorKind, Read, Write};
use std::process::Abort;
use std::test::Fail;

// Runs a script by a reader and a writer of one byte a call.
fn expect(
    rt: &impl Abort,
    alloc: Global,
    script: &str,
    fault: Option<RunFault>,
    text: &str,
    calls: [usize; 3],
) -> Result<(), RunFault> {
    let due = Due {
        fault,
        text,
        failures: [0, 0],
    };
    let source = Source::new(script, 1, 0);
    let found = calls_of(rt, alloc, source, Sink::new(1, Failing::Never), due)?;
    assert!(rt; found == calls);
    Ok(())
}

// An output is flushed once, an empty one too, and a script with a bad line has none.
#[test]
fn a_byte_a_call_gives_the_same(rt: HostRuntime) -> Result<(), Fail> {
    let calls = [STORED.len() + 1, STORED_OUTPUT.len(), 1];
    expect(&rt, rt.alloc(), STORED, None, STORED_OUTPUT, calls)?;
    expect(&rt, rt.alloc(), "", None, "", [1, 0, 1])?;
    let bad = Some(RunFault::Line(1));
    expect(&rt, rt.alloc(), "get", bad, "", [4, 0, 0])?;
    Ok(())
}

#[test]
fn a_reader_that_fails(rt: HostRuntime) -> Result<(), Fail> {
    for call in 1..=STORED.len() + 1 {
        let due = Due {
            fault: Some(RunFault::Input),
            text: "",
            failures: [1, 0],
        };
        let source = Source::new(STORED, 1, call);
        let sink = Sink::new(1, Failing::Never);
        let calls = calls_of(&rt, rt.alloc(), source, sink, due)?;
        assert!(rt; calls == [call, 0, 0], "at call {call}");
    }
    Ok(())
}

// A writer of one byte a call that fails so leaves the first bytes of the output, and is not asked
// again.
fn expect_beginning(
    rt: &impl Abort,
    alloc: Global,
    failing: Failing,
    taken: usize,
    calls: [usize; 2],
) -> Result<(), RunFault> {
    let due = Due {
        fault: Some(RunFault::Output),
        text: STORED_OUTPUT.get(..taken).unwrap_or("?"),
        failures: [0, 1],
    };
    let source = Source::new(STORED, usize::MAX, 0);
    let found = calls_of(rt, alloc, source, Sink::new(1, failing), due)?;
    assert!(rt; [found[1], found[2]] == calls, "after {taken} bytes");
    Ok(())
}

#[test]
fn a_writer_that_fails(rt: HostRuntime) -> Result<(), Fail> {
    let count = STORED_OUTPUT.len();
    for taken in 0..count {
        let calls = [taken + 1, 0];
        expect_beginning(&rt, rt.alloc(), Failing::Error(taken + 1), taken, calls)?;
        expect_beginning(&rt, rt.alloc(), Failing::Nothing(taken + 1), taken, calls)?;
    }
    expect_beginning(&rt, rt.alloc(), Failing::Flush, count, [count, 1])?;
    Ok(())
}

// Whether a device returned this, or else its error.
fn is_answer<T: PartialEq + Drop>(found: std::io::Result<T>, due: Option<T>) -> bool {
    match found {
        Ok(answer) => due == Some(answer),
        Err(error) => due.is_none() && error.kind() == ErrorKind::Interrupted,
    }
}

// A counted reader asks its device once a call, and passes on what that returns: an error, some
// bytes, the end.
#[test]
fn a_counted_reader_asks_once(rt: HostRuntime) {
    let mut place = [0; 4];
    let mut reader = Counted::new(Source::new("abc", usize::MAX, 1));
    for (due, calls) in [(None, 1), (Some(3), 2), (Some(0), 3)] {
        assert!(rt; reader.failures() < u64::MAX && is_answer(reader.read(&mut place), due));
        assert!(rt; (reader.failures(), reader.device().calls) == (1, calls));
    }
    assert!(rt; place == *b"abc\0");
}

// Whether a write returns so many bytes, or else the sink's error, and the failures and the calls
// that are counted then.
fn writes(
    writer: &mut Counted<Sink>,
    piece: &[u8],
    due: Option<usize>,
    counts: (u64, usize),
) -> bool {
    writer.failures() < u64::MAX
        && is_answer(writer.write(piece), due)
        && (writer.failures(), writer.device().calls) == counts
}

// The same of a flush, with the flushes that are counted.
fn flushes(writer: &mut Counted<Sink>, due: Option<()>, counts: (u64, usize)) -> bool {
    writer.failures() < u64::MAX
        && is_answer(writer.flush(), due)
        && (writer.failures(), writer.device().flushes) == counts
}

// So does a counted writer. A result of no byte is a failure where there was one to take.
#[test]
fn a_counted_writer_asks_once(rt: HostRuntime) {
    let mut writer = Counted::new(Sink::new(2, Failing::Error(2)));
    assert!(rt; writes(&mut writer, b"xyz", Some(2), (0, 1)));
    assert!(rt; writes(&mut writer, b"z", None, (1, 2)) && writer.device().holds("xy"));

    let mut writer = Counted::new(Sink::new(2, Failing::Nothing(1)));
    assert!(rt; writes(&mut writer, b"x", Some(0), (1, 1)));
    assert!(rt; writes(&mut writer, b"", Some(0), (1, 2)));
    assert!(rt; flushes(&mut writer, Some(()), (1, 1)) && writer.device().holds(""));

    let mut writer = Counted::new(Sink::new(2, Failing::Flush));
    assert!(rt; flushes(&mut writer, None, (1, 1)) && writer.device().calls == 0);
}

#[test]
fn faults_have_their_texts(rt: HostRuntime) -> Result<(), Fail> {
    let faults = [
        (RunFault::Line(1), "fault line 1", 2),
        (
            RunFault::Line(18446744073709551615),
            "fault line 18446744073709551615",
            2,
        ),
        (RunFault::Memory, "fault memory", 3),
        (RunFault::Input, "fault input", 4),
        (RunFault::Output, "fault output", 4),
    ];
    for (fault, text, status) in faults {
        let printed = format!(in rt.alloc(); "{fault}")?;
        assert!(rt;
            printed.as_str() == text && fault.status() == status,
            "{text}"
        );
    }
    Ok(())
}
