//! A reader or a writer with a count of its failures.

ghost use Rattle.std.specs.Prelude.{◌≡◌, ◌+◌, ◌<◌};
ghost use Rattle.std.specs.Io.{ReadsAtMost, WritesAtMost};
ghost use Rattle.std.specs.Io.KnownBytes.{ReadConsumes, WriteAppends, Keeps};

use std::io::{Read, Result, Write};

/// A device, and the number of its calls that have failed.
#[derive(Drop)]
pub struct Counted<D> {
    device: D,
    failures: u64,
}

impl<D> Counted<D> {
    ghost use Rattle.devices.specs.Device.{device_of, failures_of};

    /// The device, with no failed call so far.
    pub fn new(device: D) -> Self
        ensures device { device_of result ≡ device }
        ensures failures { failures_of result ≡ 0 }
    {
        Counted {
            device,
            failures: 0,
        }
    }

    /// The number of calls that have failed: each that returned an error, and each write that took
    /// no byte of a piece that wasn't empty.
    pub fn failures(&self) -> u64
        ensures { result ≡ failures_of self.now }
    {
        self.failures
    }

    /// The device.
    pub fn device(&self) -> &D
        ensures { result.now ≡ device_of self.now }
    {
        &self.device
    }

    // Counts a call that failed.
    fn fail(&mut self)
        requires { failures_of self.old < u64.MAX }
        ensures device { device_of self.new ≡ device_of self.old }
        ensures failures { failures_of self.new ≡ failures_of self.old + 1 }
    {
        self.failures += 1;
    }
}

impl<D: Read> Counted<D> {
    ghost use Rattle.devices.specs.Device.{device_of, failures_of, errors};

    /// Reads from the device into `buf`, and returns the device's result. An error counts as a
    /// failure.
    pub fn read(&mut self, buf: &mut [u8]) -> Result<usize>
        requires { failures_of self.old < u64.MAX }
        ensures bound { ReadsAtMost result buf.new }
        ensures bytes { ReadConsumes (D.remaining (device_of self.old))
            (D.remaining (device_of self.new)) result buf.new }
        ensures count { failures_of self.new ≡ failures_of self.old + errors result }
    {
        let given = self.device.read(buf);
        if given.is_err() {
            self.fail();
        }
        given
    }
}

impl<D: Write> Counted<D> {
    ghost use Rattle.devices.specs.Device.{device_of, failures_of, errors, misses};

    /// Writes the first bytes of `buf` to the device, and returns the device's result. An error
    /// counts as a failure, and so does a result of 0 bytes where `buf` isn't empty.
    pub fn write(&mut self, buf: &[u8]) -> Result<usize>
        requires { failures_of self.old < u64.MAX }
        ensures bound { WritesAtMost result buf.now }
        ensures bytes { WriteAppends (D.contents (device_of self.old))
            (D.contents (device_of self.new)) result buf.now }
        ensures count { failures_of self.new ≡ failures_of self.old + misses result buf.now }
    {
        let taken = self.device.write(buf);
        match &taken {
            Ok(0) if !buf.is_empty() => self.fail(),
            Ok(_) => {}
            Err(_) => self.fail(),
        }
        taken
    }

    /// Flushes the device, and returns its result. An error counts as a failure.
    pub fn flush(&mut self) -> Result<()>
        requires { failures_of self.old < u64.MAX }
        ensures bytes { Keeps (D.contents (device_of self.old)) (D.contents (device_of self.new)) }
        ensures count { failures_of self.new ≡ failures_of self.old + errors result }
    {
        let flushed = self.device.flush();
        if flushed.is_err() {
            self.fail();
        }
        flushed
    }
}
