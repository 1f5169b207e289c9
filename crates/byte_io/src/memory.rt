//! Devices over memory, which report their bytes.

ghost use Rattle.std.specs.Prelude.{◌≡◌, ◌<◌, ◌≤◌, ◌^◌, ◌+◌, ◌-◌, ◌++◌, [], IfOk, OnErr, false, length};
ghost use Rattle.byte_io.specs.Memory.{ReadsText};

use crate::device::{Device, DeviceFault, Sink, Source, Took};
use std::alloc::Global;
use std::marker::Model;

/// Reads from a slice, as many bytes at a time as there is room for. It never times out and never fails.
#[derive(Drop)]
pub struct SliceSource<'s> {
    all: &'s [u8],
    at: usize,
    has_ended: bool,
}

impl<'s> Model for SliceSource<'s> {
    ghost use Rattle.std.specs.Prelude.{◌≡◌, ◌≤◌, length, true};
    ghost use Rattle.byte_io.specs.Memory.{IsRead, Read};

    ghost Value = { Read };

    ghost view = { λ s. record { text = s.all.now; at = s.at; has_ended = s.has_ended } };

    ghost invariant = { λ s. IsRead (record { text = s.all.now; at = s.at; has_ended = s.has_ended }) };
}

impl<'s> SliceSource<'s> {
    /// A source of which nothing has been read.
    pub fn new(all: &'s [u8]) -> SliceSource<'s>
        ensures unread { result ≡ record { text = all.now; at = 0; has_ended = false } }
    {
        SliceSource {
            all,
            at: 0,
            has_ended: false,
        }
    }
}

impl Device for SliceSource<'_> {
    ghost use Rattle.std.specs.Prelude.{Some, take};

    ghost input = { λ s. record { given = Some (take s.at s.text); lulls = Some 0; failures = 0; has_ended = s.has_ended } };
}

impl SliceSource<'_> {
    /// One read: all that is left and has room, or the end after it.
    fn read(&mut self, buffer: &mut [u8]) -> Result<Took, DeviceFault>
        requires room { 0 < length buffer.old }
        ensures reads { ReadsText self.old buffer.new result self.new }
    {
        let left = self.all.len() - self.at;
        let count = left.min(buffer.len());
        if count == 0 {
            self.has_ended = true;
            return Ok(Took::Ended);
        }
        let end = self.at + count;
        buffer[..count].copy_from_slice(&self.all[self.at..end]);
        self.at = end;
        self.has_ended = false;
        Ok(Took::Bytes(count))
    }
}

impl Source for SliceSource<'_> {
    fn take(&mut self, buffer: &mut [u8]) -> Result<Took, DeviceFault> {
        self.read(buffer)
    }
}

/// Keeps the bytes that are written to it. A growth that is refused counts as a failure of the device.
#[derive(Drop)]
pub struct VecSink {
    bytes: Vec<u8>,
    failures: u64,
}

impl Model for VecSink {
    ghost use Rattle.byte_io.specs.Memory.{Written};

    ghost Value = { Written };

    ghost view = { λ s. record { bytes = s.bytes.items; failures = s.failures } };
}

impl VecSink {
    /// A sink that holds nothing.
    pub fn new(alloc: Global) -> VecSink
        ensures unwritten { result ≡ record { bytes = []; failures = 0 } }
    {
        VecSink {
            bytes: Vec::new(alloc),
            failures: 0,
        }
    }

    /// The bytes that were written, in order.
    pub fn bytes(&self) -> &[u8]
        ensures written { result.now ≡ self.now.bytes }
    {
        self.bytes.as_slice()
    }
}

impl Device for VecSink {
    ghost use Rattle.std.specs.Prelude.{Some};

    ghost output = { λ s. record { got = Some s.bytes; failures = s.failures } };
}

impl VecSink {
    /// One write: it takes all the bytes, or none if memory is refused.
    fn write(&mut self, bytes: &[u8]) -> Result<usize, DeviceFault>
        requires count { self.old.failures < 2 ^ 64 - 1 }
        ensures all { IfOk result (λ n. (n ≡ length bytes.now) × (self.new ≡ record self.old { bytes = self.old.bytes ++ bytes.now })) }
        ensures none { OnErr result (self.new ≡ record self.old { failures = self.old.failures + 1 }) }
    {
        match self.bytes.extend_from_slice(bytes) {
            Ok(()) => Ok(bytes.len()),
            Err(_) => {
                self.failures += 1;
                Err(DeviceFault)
            }
        }
    }
}

impl Sink for VecSink {
    fn give(&mut self, bytes: &[u8]) -> Result<usize, DeviceFault> {
        self.write(bytes)
    }
}
