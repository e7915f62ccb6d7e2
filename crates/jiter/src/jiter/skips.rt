//! The pull reader's skips, which move past a value and build nothing.
ghost use Rattle.jiter.specs.Words.{next, known, value_read, skip_read, Replies, StandsAt, byte_of, Reads};
ghost use Rattle.jiter.specs.Words.{never, SkipsAsRead};

use crate::errors::JiterResult;
use crate::jiter::{Jiter, refusal};
use crate::peek::Peek;
use jiter_steps::skip::skip;

impl<'j> Jiter<'j> {
    /// Skips the next value, whatever its type (RFC 8259, 3).
    ///
    /// Builds nothing, decodes no escape, does not check UTF-8 and does not allocate.
    ///
    /// # Errors
    ///
    /// - the errors of [`Jiter::next_value`], except `InvalidUnicodeCodePoint` and `OutOfMemory`; they leave the reader
    ///   at the same position
    pub fn next_skip(&mut self) -> JiterResult<()>
        ensures reads { Reads never (λ u. u) (next self.old (skip_read self.old)) result self.old self.new }
        ensures as_read { SkipsAsRead (Replies (λ u. u) result self.new)
            (next self.old (value_read self.old)) }
    {
        let peek = self.peek()?;
        self.known_skip(peek)
    }

    /// Skips the value that you peeked, as [`Jiter::next_skip`] does.
    ///
    /// # Errors
    ///
    /// - the errors of [`Jiter::next_skip`]; they leave the reader at the same position
    ///
    /// # Requires
    ///
    /// The byte of `peek` is at the reader's position, as after the call that returned it. `rt try` does not test it.
    pub fn known_skip(&mut self, peek: Peek) -> JiterResult<()>
        requires { StandsAt self.old (byte_of peek) }
        ensures reads { Reads never (λ u. u) (known self.old (skip_read self.old)) result self.old self.new }
        ensures as_read { SkipsAsRead (Replies (λ u. u) result self.new)
            (known self.old (value_read self.old)) }
    {
        let _ = peek;
        skip(&mut self.parser, self.allow_inf_nan).map_err(refusal)
    }
}
