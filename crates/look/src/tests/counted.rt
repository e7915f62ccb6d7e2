//! A reader and a writer that count their calls, some of which fail.
use std::alloc::Global;
use std::io;
use std::io::{ErrorKind, Read, Write};

/// The kinds of error that end a run: all except `Interrupted`.
pub const ENDING_KINDS: [ErrorKind; 41] = [
    ErrorKind::NotFound,
    ErrorKind::PermissionDenied,
    ErrorKind::ConnectionRefused,
    ErrorKind::ConnectionReset,
    ErrorKind::HostUnreachable,
    ErrorKind::NetworkUnreachable,
    ErrorKind::ConnectionAborted,
    ErrorKind::NotConnected,
    ErrorKind::AddrInUse,
    ErrorKind::AddrNotAvailable,
    ErrorKind::NetworkDown,
    ErrorKind::BrokenPipe,
    ErrorKind::AlreadyExists,
    ErrorKind::WouldBlock,
    ErrorKind::NotADirectory,
    ErrorKind::IsADirectory,
    ErrorKind::DirectoryNotEmpty,
    ErrorKind::ReadOnlyFilesystem,
    ErrorKind::FilesystemLoop,
    ErrorKind::StaleNetworkFileHandle,
    ErrorKind::InvalidInput,
    ErrorKind::InvalidData,
    ErrorKind::TimedOut,
    ErrorKind::WriteZero,
    ErrorKind::StorageFull,
    ErrorKind::NotSeekable,
    ErrorKind::QuotaExceeded,
    ErrorKind::FileTooLarge,
    ErrorKind::ResourceBusy,
    ErrorKind::ExecutableFileBusy,
    ErrorKind::Deadlock,
    ErrorKind::CrossesDevices,
    ErrorKind::TooManyLinks,
    ErrorKind::InvalidFilename,
    ErrorKind::ArgumentListTooLong,
    ErrorKind::Unsupported,
    ErrorKind::UnexpectedEof,
    ErrorKind::OutOfMemory,
    ErrorKind::InProgress,
    ErrorKind::Other,
    ErrorKind::Uncategorized,
];

/// A count of calls. The calls in one range fail, or move no byte.
#[derive(Clone, Copy)]
pub struct Calls {
    /// The number of calls so far.
    pub made: usize,
    first: usize,
    after: usize,
    error: Option<io::Error>,
}

impl Calls {
    /// Returns a count in which every call works.
    pub fn working() -> Self {
        Calls::idle(0, 0)
    }

    /// Returns a count in which `count` calls fail with this kind of error, from the call `first` on, counted from 0.
    pub fn failing(first: usize, count: usize, kind: ErrorKind) -> Self {
        Self {
            error: Some(io::Error::from(kind)),
            ..Calls::idle(first, count)
        }
    }

    /// Returns a count in which `count` calls succeed but move no byte, from the call `first` on, counted from 0.
    pub fn idle(first: usize, count: usize) -> Self {
        Self {
            made: 0,
            first,
            after: first.saturating_add(count),
            error: None,
        }
    }

    // Counts a call: `Ok(true)` if it works, `Ok(false)` if it moves no byte.
    fn next(&mut self) -> io::Result<bool> {
        let call = self.made;
        self.made = call.saturating_add(1);
        if call < self.first || self.after <= call {
            return Ok(true);
        }
        match self.error {
            Some(error) => Err(error),
            None => Ok(false),
        }
    }
}

/// A reader that returns at most `piece` bytes a call.
#[derive(Drop)]
pub struct CountedReader<'a> {
    /// The bytes that are left.
    pub rest: &'a [u8],
    /// Its calls.
    pub calls: Calls,
    /// How many calls returned no byte.
    pub ends: usize,
    piece: usize,
}

impl<'a> CountedReader<'a> {
    /// Returns a reader of these bytes.
    pub fn new(rest: &'a [u8], piece: usize, calls: Calls) -> Self {
        Self {
            rest,
            calls,
            ends: 0,
            piece,
        }
    }
}

impl<'a> Read for CountedReader<'a> {
    fn read(&mut self, buf: &mut [u8]) -> io::Result<usize> {
        let mut count = 0;
        if self.calls.next()? {
            let mut piece = self.rest.get(..self.piece).unwrap_or(self.rest);
            count = piece.read(buf)?;
            self.rest = self.rest.get(count..).unwrap_or(&[]);
        }
        if count == 0 {
            self.ends = self.ends.saturating_add(1);
        }
        Ok(count)
    }
}

/// A writer that takes one byte a call.
#[derive(Drop)]
pub struct CountedWriter {
    /// The bytes that it took.
    pub got: Vec<u8>,
    /// Its calls, including flushes.
    pub calls: Calls,
    /// How many flushes succeeded.
    pub flushes: usize,
}

impl CountedWriter {
    /// Returns a writer that has taken nothing.
    pub fn new(alloc: Global, calls: Calls) -> Self {
        Self {
            got: Vec::new(alloc),
            calls,
            flushes: 0,
        }
    }

    /// Returns whether it took exactly these bytes, in one call each, and was flushed once.
    pub fn took_whole(&self, bytes: &[u8]) -> bool {
        self.calls.made == bytes.len() + 1 && self.flushes == 1 && self.got.as_slice() == bytes
    }
}

impl Write for CountedWriter {
    fn write(&mut self, buf: &[u8]) -> io::Result<usize> {
        if !self.calls.next()? {
            return Ok(0);
        }
        let Some(byte) = buf.first() else {
            return Ok(0);
        };
        self.got.push(*byte)?;
        Ok(1)
    }

    fn flush(&mut self) -> io::Result<()> {
        self.calls.next()?;
        self.flushes = self.flushes.saturating_add(1);
        Ok(())
    }
}
