//! Line and column numbers for a document that comes in chunks.
ghost use Rattle.std.specs.Prelude.{◌≡◌, ◌+◌, ◌^◌, ◌<◌, ◌≤◌, ◌++◌, ◌⊎◌, [], Contains, List, OnErr, OnOk};
ghost use Rattle.std.specs.Prelude.{length, take, vec_len, ℕ};
ghost use Rattle.jiter_incremental.specs.Words.{position_of, HasPassed, feeds_from, line_index};

use jiter_scan::LinePosition;
use jiter_scan::memory::{AllocFailed, push};
use std::alloc::{AllocError, Global};
use std::marker::Model;

/// The line feeds of a document that comes in chunks: finds the line and column of an error without the bytes.
///
/// It keeps the index of each line feed and no other byte. Push the same chunks as to an [`IncrementalParser`](crate::IncrementalParser).
///
/// # Examples
///
/// ```
/// let mut incremental_parser = IncrementalParser::new(alloc, false, PartialMode::Off);
/// let mut lines = LineIndex::new(alloc);
/// for chunk in [b"[1,\n ".as_slice(), b"2,]"] {
///     incremental_parser.push(chunk)?;
///     lines.push(chunk)?;
/// }
/// let error = incremental_parser.finish().err().ok_or("a document")?;
/// assert_eq!(rt; lines.position(error.index), LinePosition::new(2, 4));
/// ```
#[derive(Drop)]
pub struct LineIndex {
    // the number of bytes so far
    count: usize,
    // the index of each line feed
    feeds: Vec<usize>,
}

impl Model for LineIndex {
    ghost use Rattle.jiter_incremental.specs.LineIndex.{Passed};

    ghost Value = { Passed };

    ghost view = { λ l. record { count = l.count; feeds = l.feeds.items } };
}

impl LineIndex {
    /// Returns the line feeds of no bytes. Does not allocate.
    pub fn new(alloc: Global) -> LineIndex
        ensures { HasPassed result [] }
    {
        LineIndex {
            count: 0,
            feeds: Vec::new(alloc),
        }
    }

    /// Takes a chunk: the bytes that follow those so far.
    ///
    /// # Errors
    ///
    /// - `AllocError` if an allocation fails, only for a chunk with a line feed
    /// - `AllocError` if the number of bytes would exceed `usize::MAX`
    ///
    /// After an error no byte of the chunk is taken. If an allocation failed, push the same chunk again.
    pub fn push(&mut self, chunk: &[u8]) -> Result<(), AllocError>
        ensures ok { (t : List ℕ) → HasPassed self.old t → OnOk result (HasPassed self.new (t ++ chunk.now)) }
        ensures refused { OnErr result (self.new ≡ self.old) }
        ensures fits { OnOk result (self.old.count + length chunk.now < 2 ^ 64) }
        ensures wanted { OnErr result
            ((2 ^ 64 ≤ self.old.count + length chunk.now) ⊎ Contains chunk.now 10) }
    {
        let Some(count) = self.count.checked_add(chunk.len()) else {
            return Err(AllocError);
        };
        let before = self.feeds.len();
        match push_feeds(&mut self.feeds, self.count, chunk) {
            Ok(()) => {
                self.count = count;
                Ok(())
            }
            Err(refused) => {
                self.feeds.truncate(before);
                Err(AllocError::from(refused))
            }
        }
    }

    /// Returns the line and column of a byte index in all bytes so far, as [`LinePosition::find`] does.
    ///
    /// An index at or past the end gives the line and column of the last byte; with no bytes, line 1 and column 0.
    pub fn position(&self, index: usize) -> LinePosition
        ensures { (t : List ℕ) → HasPassed self.now t → result ≡ position_of t index }
    {
        position_in(self.feeds.as_slice(), self.count, index)
    }
}

// If an allocation fails, some indices are appended already: the caller removes them.
fn push_feeds(feeds: &mut Vec<usize>, begin: usize, chunk: &[u8]) -> Result<(), AllocFailed>
    requires { begin + length chunk.now < 2 ^ 64 }
    ensures ok { OnOk result (feeds.new.items ≡ feeds.old.items ++ feeds_from begin chunk.now) }
    ensures refused { OnErr result (take (vec_len feeds.old) feeds.new.items ≡ feeds.old.items) }
    ensures wanted { OnErr result (Contains chunk.now 10) }
{
    for (offset, byte) in chunk.iter().enumerate() {
        if *byte == b'\n' {
            push(feeds, begin + offset)?;
        }
    }
    Ok(())
}

// The line feed itself is column 0 of the line that it begins.
fn position_in(feeds: &[usize], size: usize, index: usize) -> LinePosition
    ensures { (t : List ℕ) → length t ≡ size → feeds.now ≡ line_index t → result ≡ position_of t index }
{
    let end = if index < size { index + 1 } else { size };
    let mut line = 1;
    let mut begin = 0;
    for feed in feeds {
        if *feed < end {
            line += 1;
            begin = *feed + 1;
        }
    }
    LinePosition::new(line, end - begin)
}
