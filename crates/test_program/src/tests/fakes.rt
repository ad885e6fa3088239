//! Readers and writers that fail at a chosen call.
use std::io;
use std::io::{ErrorKind, Read, Write};

/// Returns one byte per read, and fails at the read after this many.
#[derive(Drop)]
pub(crate) struct HaltingReader<'a> {
    pub bytes: &'a [u8],
    pub reads_before: u64,
    pub kind: ErrorKind,
}

impl Read for HaltingReader<'_> {
    fn read(&mut self, buf: &mut [u8]) -> io::Result<usize> {
        if self.reads_before == 0 {
            return Err(io::Error::from(self.kind));
        }
        self.reads_before -= 1;
        match (self.bytes.split_first(), buf.first_mut()) {
            (Some((first, rest)), Some(place)) => {
                *place = *first;
                self.bytes = rest;
                Ok(1)
            }
            _ => Ok(0),
        }
    }
}

/// Accepts one byte per write, and fails at the write after this many, or at each flush.
#[derive(Drop)]
pub(crate) struct HaltingWriter {
    pub taken: usize,
    pub writes_before: u64,
    pub flushes: bool,
}

impl HaltingWriter {
    /// Fails at the write after this many.
    pub fn after(writes_before: u64) -> HaltingWriter {
        HaltingWriter {
            taken: 0,
            writes_before,
            flushes: true,
        }
    }

    /// Accepts every byte, and fails at each flush.
    pub fn unflushed() -> HaltingWriter {
        HaltingWriter {
            taken: 0,
            writes_before: u64::MAX,
            flushes: false,
        }
    }
}

impl Write for HaltingWriter {
    fn write(&mut self, buf: &[u8]) -> io::Result<usize> {
        if self.writes_before == 0 {
            return Err(io::Error::from(ErrorKind::Interrupted));
        }
        self.writes_before -= 1;
        if buf.is_empty() {
            return Ok(0);
        }
        self.taken = self.taken.saturating_add(1);
        Ok(1)
    }

    fn flush(&mut self) -> io::Result<()> {
        if self.flushes {
            Ok(())
        } else {
            Err(io::Error::from(ErrorKind::Interrupted))
        }
    }
}
