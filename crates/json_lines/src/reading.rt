//! A line of a reader, by a search of its buffer.
ghost use Rattle.std.specs.Prelude.{◌≡◌, ◌≢◌, ◌<◌, ◌≤◌, ◌+◌, ◌-◌, ◌++◌, true, All, IfOk, IfSome, Ok, OnOk, OnSome};
ghost use Rattle.std.specs.Prelude.{length, take, vec_len};
ghost use Rattle.std.specs.Io.{IsEmptyOrEndsWith, StartsWith, StopsAt, appended_bytes};
ghost use Rattle.std.specs.Io.BufRead.{DropsThrough, take_through};
ghost use Rattle.std.specs.Io.KnownBytes.{Consumes, IsAtEnd};

use memchr::memchr;
use std::io;
use std::io::{BufRead, ErrorKind};

// Returns how many of these bytes belong to the line: all up to its line feed, or all of them.
fn len_of_line(bytes: &[u8]) -> usize
    ensures bound { result ≤ length bytes.now }
    ensures some { 0 < length bytes.now → 0 < result }
    ensures before { All (λ x. x ≢ 10) (take (result - 1) bytes.now) }
{
    match memchr(b'\n', bytes) {
        Some(at) => at + 1,
        None => bytes.len(),
    }
}

// Appends the part of the line that is in the reader's buffer. Returns whether the line ends there. An interrupted read
// appends nothing.
fn append_part<B: BufRead>(reader: &mut B, line: &mut Vec<u8>) -> io::Result<bool>
    ensures grows { vec_len line.old ≤ vec_len line.new }
    ensures appends { StartsWith line.new.items line.old.items }
    ensures stops { StopsAt (appended_bytes line.old.items line.new.items) 10 }
    ensures bytes { Consumes (B.remaining reader.old) (B.remaining reader.new)
        (appended_bytes line.old.items line.new.items) }
    ensures end { result ≡ Ok true → length (appended_bytes line.old.items line.new.items) ≡ 0
        → OnSome (B.remaining reader.old) (IsAtEnd (B.remaining reader.new)) }
    ensures unless_done { result ≢ Ok true
        → All (λ x. x ≢ 10) (appended_bytes line.old.items line.new.items) }
    ensures done { result ≡ Ok true
        → IsEmptyOrEndsWith (appended_bytes line.old.items line.new.items) 10 }
{
    let bytes = match reader.fill_buf() {
        Ok(bytes) => bytes,
        Err(error) if error.kind() == ErrorKind::Interrupted => return Ok(false),
        Err(error) => return Err(error),
    };
    let end = len_of_line(bytes);
    line.extend_from_slice(&bytes[..end])?;
    let is_done = end == 0 || bytes[end - 1] == b'\n';
    reader.consume(end);
    Ok(is_done)
}

// Appends a line with the line feed at its end. Returns how many bytes it has, which is 0 at the reader's end.
pub(crate) fn read_line<B: BufRead>(reader: &mut B, line: &mut Vec<u8>) -> io::Result<usize>
    ensures ok { IfOk result (λ n. vec_len line.new ≡ vec_len line.old + n) }
    ensures bytes { OnOk result (IfSome (B.remaining reader.old)
        (λ xs. line.new.items ≡ line.old.items ++ take_through 10 xs)) }
    ensures rest { OnOk result (DropsThrough (B.remaining reader.old) (B.remaining reader.new) 10) }
{
    let begin = line.len();
    for _ in 0..u64::MAX {
        if append_part(reader, line)? {
            return Ok(line.len() - begin);
        }
    }
    Err(io::Error::from(ErrorKind::Other))
}
