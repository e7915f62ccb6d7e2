//! The position of the pull reader.
ghost use Rattle.std.specs.Prelude.{◌≡◌, ◌≤◌, length, slice_range};
ghost use Rattle.jiter_scan.specs.Position.{position_of};

use crate::jiter::Jiter;
use jiter_scan::LinePosition;

impl<'j> Jiter<'j> {
    /// Returns the reader's position: a byte index from 0, at most the length.
    pub fn current_index(&self) -> usize
        ensures value { result ≡ self.now.position }
        ensures within { result ≤ length self.now.text }
    {
        self.parser.index
    }

    /// Returns the line and column of the reader's position.
    pub fn current_position(&self) -> LinePosition
        ensures { result ≡ position_of self.now.text self.now.position }
    {
        self.error_position(self.current_index())
    }

    /// Returns the line and column of a byte index, such as that of an error.
    pub fn error_position(&self, index: usize) -> LinePosition
        ensures { result ≡ position_of self.now.text index }
    {
        LinePosition::find(self.parser.bytes, index)
    }

    /// Returns the bytes from index `start` to the reader's position, borrowed from the document.
    ///
    /// # Requires
    ///
    /// `start` is at most the reader's position. `rt try` does not test it.
    ///
    /// # Examples
    ///
    /// ```rust
    /// let peek = jiter.peek()?;
    /// let start = jiter.current_index();
    /// jiter.known_skip(peek)?;
    /// let source = jiter.slice_to_current(start);
    /// ```
    pub fn slice_to_current(&self, start: usize) -> &'j [u8]
        requires { start ≤ self.now.position }
        ensures { result.now ≡ slice_range self.now.text start self.now.position }
    {
        &self.parser.bytes[start..self.current_index()]
    }
}
