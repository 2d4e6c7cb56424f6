//! Devices whose calls are tried again where a signal interrupts them.

ghost use Rattle.std.specs.Prelude.{◌≡◌, ◌≢◌, IfErr};
ghost use Rattle.std.specs.Io.{ReadsAtMost, WritesAtMost};
ghost use Rattle.std.specs.Io.KnownBytes.{ReadConsumes, WriteAppends, Keeps};
ghost use Rattle.std.specs.IoError.{error_kind};

use std::io::{Error, ErrorKind, Read, Result, Write};

/// A device. Each call that a signal interrupts is made again.
#[derive(Drop)]
pub struct Retried<D> {
    device: D,
}

impl<D> Retried<D> {
    ghost use Rattle.devices.specs.Device.{retried_device};

    /// The device with such calls.
    pub fn new(device: D) -> Self
        ensures { retried_device result ≡ device }
    {
        Retried { device }
    }

    /// The device itself.
    pub fn device(&self) -> &D
        ensures { result.now ≡ retried_device self.now }
    {
        &self.device
    }
}

impl<D: Read> Read for Retried<D> {
    ghost use Rattle.devices.specs.Device.{retried_device};

    ghost remaining = { λ retried. D.remaining (retried_device retried) };

    fn read(&mut self, buf: &mut [u8]) -> Result<usize>
        ensures bound { ReadsAtMost result buf.new }
        ensures bytes { ReadConsumes (D.remaining (retried_device self.old))
            (D.remaining (retried_device self.new)) result buf.new }
        ensures retried { IfErr result (λ e. error_kind e ≢ ErrorKind.Interrupted) }
    {
        for _ in 0..u64::MAX {
            match self.device.read(buf) {
                Ok(count) => return Ok(count),
                Err(error) => {
                    if error.kind() != ErrorKind::Interrupted {
                        return Err(error);
                    }
                }
            }
        }
        Err(Error::from(ErrorKind::TimedOut))
    }
}

impl<D: Write> Write for Retried<D> {
    ghost use Rattle.devices.specs.Device.{retried_device};

    ghost contents = { λ retried. D.contents (retried_device retried) };

    fn write(&mut self, buf: &[u8]) -> Result<usize>
        ensures bound { WritesAtMost result buf.now }
        ensures bytes { WriteAppends (D.contents (retried_device self.old))
            (D.contents (retried_device self.new)) result buf.now }
        ensures retried { IfErr result (λ e. error_kind e ≢ ErrorKind.Interrupted) }
    {
        for _ in 0..u64::MAX {
            match self.device.write(buf) {
                Ok(taken) => return Ok(taken),
                Err(failure) => {
                    if failure.kind() != ErrorKind::Interrupted {
                        return Err(failure);
                    }
                }
            }
        }
        Err(Error::from(ErrorKind::TimedOut))
    }

    fn flush(&mut self) -> Result<()>
        ensures bytes { Keeps (D.contents (retried_device self.old))
            (D.contents (retried_device self.new)) }
        ensures retried { IfErr result (λ e. error_kind e ≢ ErrorKind.Interrupted) }
    {
        for _ in 0..u64::MAX {
            match self.device.flush() {
                Ok(()) => return Ok(()),
                Err(fault) => {
                    if fault.kind() != ErrorKind::Interrupted {
                        return Err(fault);
                    }
                }
            }
        }
        Err(Error::from(ErrorKind::TimedOut))
    }
}
