//! The pull reader's calls for strings.
ghost use Rattle.std.specs.Prelude.{◌≡◌, ◌+◌, ◌<◌, ◌≤◌, Bool, IfErr, IfOk, IfSome, Some, if◌then◌else◌};
ghost use Rattle.std.specs.Prelude.{length, slice_get, false, true};
ghost use Rattle.jiter.specs.Words.{sem, taken, raw_view, text_view, string_at, text_form, whole, kept, raw};
ghost use Rattle.jiter.specs.Words.{raw_kept, value_place, next, known, scalar_reply, str_read, bytes_read};
ghost use Rattle.jiter.specs.Words.{reply_seen, text_bytes, IsEscapedAt, StandsAt, Lends, Reads};
ghost use Rattle.jiter.specs.Words.{never, escape_memory, string_memory, LeavesReader};
ghost use Rattle.jiter_scan.specs.Ascii as ascii;

use crate::errors::{JiterResult, JsonType};
use crate::jiter::{Jiter, refusal, refusal_at};
use jiter_scan::bytes::short_scan::{Look, look_at};
use jiter_scan::text::utf8_text;
use jiter_steps::parse::Start;
use jiter_steps::step::peek_for;
use jiter_steps::string_decoder::{checked_text, decode};
use std::alloc::Global;
use std::borrow::CowStr;

// Returns the string at `at` and where it ends, if it is in the document as it is. Otherwise returns its first
// backslash, and whether all bytes before it are below 80 hex, or `None` if it has none or an error is before it.
#[inline(always)]
pub(super) fn plain_text<'j>(
    bytes: &'j [u8],
    at: usize,
) -> Result<(&'j str, usize), Option<(usize, bool)>>
    requires { at < length bytes.now }
    ensures value { IfOk result (λ read. (partial : Bool) → string_at (text_form partial) bytes.now at
        ≡ taken (record { owned = false; bytes = read.0.now }) read.1) }
    ensures within { IfOk result (λ read. (at < read.1) × (read.1 ≤ length bytes.now)) }
    ensures escaped { IfErr result (λ e. IfSome e (IsEscapedAt bytes.now at)) }
{
    let (to, look) = look_at(bytes, at + 1);
    match look {
        Look::Plain => Ok((utf8_text(&bytes[at + 1..to]), to + 1)),
        Look::Utf8 => match checked_text(bytes, at + 1, to, false) {
            Ok(text) => Ok((text, to + 1)),
            Err(_) => Err(None),
        },
        Look::Escaped(ascii) => Err(Some((to, ascii))),
        Look::Fault(_) => Err(None),
    }
}

impl<'j> Jiter<'j> {
    // `partial` allows an unterminated string.
    pub(super) fn string(&mut self, alloc: Global, partial: bool) -> JiterResult<CowStr<'j>>
        requires { self.old.position < length self.old.text }
        ensures reads { Reads (escape_memory self.old.text self.old.position) text_view
            (scalar_reply self.old.position
            (string_at (if partial then kept else whole) self.old.text self.old.position))
            result self.old self.new }
    {
        let tape = self.tape.get_or_insert_with(|| Vec::new(alloc));
        let read = self.parser.string(alloc, tape, partial);
        read.map_err(|error| refusal_at(error, self.parser.index))
    }

    // Reads what the fast path can't, and finds the error.
    #[inline(never)]
    fn take_str(&mut self, alloc: Global) -> JiterResult<CowStr<'j>>
        ensures reads { Reads (string_memory self.old.text (value_place self.old)) text_view
            (next self.old (str_read self.old)) result self.old self.new }
    {
        let start = self.next_start()?;
        match start {
            Start::String => self.string(alloc, self.allow_partial_strings),
            _ => Err(self.refused_as(JsonType::String, start)),
        }
    }

    #[inline(always)]
    fn slow_str(&mut self, alloc: Global) -> JiterResult<&str>
        ensures reads { Lends (string_memory self.old.text (value_place self.old)) (λ x. x.now)
            (reply_seen text_bytes (next self.old (str_read self.old))) result self.old }
        ensures* after { sem 𝓛 (LeavesReader (string_memory self.old.text (value_place self.old)) (λ x. x.now)
            (reply_seen text_bytes (next self.old (str_read self.old))) result self.entry) }
    {
        self.text = self.take_str(alloc)?;
        Ok(self.text.as_str())
    }

    // Decodes the string at `at`, whose first backslash is `escape`, to the tape, and borrows it from there.
    #[inline(always)]
    fn escaped_str(&mut self, alloc: Global, at: usize, escape: (usize, bool)) -> JiterResult<&str>
        requires place { at ≡ value_place self.old }
        requires quote { slice_get self.old.text at ≡ Some ascii.quote }
        requires escape { IsEscapedAt self.old.text at escape }
        ensures reads { Lends (string_memory self.old.text (value_place self.old)) (λ x. x.now)
            (reply_seen text_bytes (next self.old (str_read self.old))) result self.old }
        ensures* after { sem 𝓛 (LeavesReader (string_memory self.old.text (value_place self.old)) (λ x. x.now)
            (reply_seen text_bytes (next self.old (str_read self.old))) result self.entry) }
    {
        let (stop, ascii) = escape;
        let partial = self.allow_partial_strings;
        let tape = self.tape.get_or_insert_with(|| Vec::new(alloc));
        let read = decode(tape, self.parser.bytes, at, stop, ascii, partial);
        match read {
            Ok((count, end)) => {
                self.parser.index = end;
                match &self.tape {
                    Some(tape) => Ok(utf8_text(&tape.as_slice()[..count])),
                    None => Ok(""),
                }
            }
            Err(error) => {
                self.parser.index = at;
                Err(refusal_at(error, at))
            }
        }
    }

    /// Reads a string and returns it decoded (RFC 8259, 7).
    ///
    /// The string is borrowed from the reader: use it before the reader's next call, or call [`Jiter::next_bytes`]. A
    /// string without a backslash is in the document's bytes and is not copied.
    ///
    /// # Errors
    ///
    /// - `WrongType` if the next value has another type; a number with an error of its own is reported as that error
    /// - `ExpectedSomeValue` if the next byte begins no value
    /// - `EofWhileParsingValue` if only whitespace is left
    /// - `EofWhileParsingString` if the input ends inside the string, unless partial strings are allowed
    /// - `ControlCharacterWhileParsingString` if a byte is below 0x20
    /// - `InvalidEscape` if a backslash begins no escape, or a hex digit is wrong
    /// - `LoneLeadingSurrogateInHexEscape` or `UnexpectedEndOfHexEscape` if the escape of a surrogate is unpaired
    /// - `InvalidUnicodeCodePoint` if the string is not UTF-8 (RFC 8259, 8.1)
    /// - `OutOfMemory`, only for a string with a backslash
    ///
    /// The reader is then at the value's first byte (or at the end, if only whitespace is left), so you can read the
    /// value again.
    pub fn next_str(&mut self, alloc: Global) -> JiterResult<&str>
        ensures reads { Lends (string_memory self.old.text (value_place self.old)) (λ x. x.now)
            (reply_seen text_bytes (next self.old (str_read self.old))) result self.old }
        ensures* after { sem 𝓛 (LeavesReader (string_memory self.old.text (value_place self.old)) (λ x. x.now)
            (reply_seen text_bytes (next self.old (str_read self.old))) result self.entry) }
    {
        if let (at, Some(b'"')) = peek_for(self.parser.bytes, self.parser.index, b'"') {
            match plain_text(self.parser.bytes, at) {
                Ok((text, end)) => {
                    self.parser.index = end;
                    return Ok(text);
                }
                Err(Some(escape)) => return self.escaped_str(alloc, at, escape),
                Err(None) => {}
            }
        }
        self.slow_str(alloc)
    }

    /// Reads a string and returns it decoded, borrowed from the document if it has no escape (RFC 8259, 7).
    ///
    /// The string borrows from the document, not from the reader, so you can keep it while you read on. Only a string
    /// with an escape is copied. Otherwise this is [`Jiter::next_str`].
    ///
    /// # Errors
    ///
    /// - the errors of [`Jiter::next_str`]; they leave the reader at the same position
    ///
    /// # Examples
    ///
    /// ```rust
    /// let mut jiter = Jiter::new(br#"["plain", "tab\t"]"#);
    /// jiter.next_array()?;
    /// let plain = jiter.next_str_cow(alloc)?;
    /// jiter.array_step()?;
    /// let escaped = jiter.next_str_cow(alloc)?;
    /// assert!(rt; matches!(&plain, CowStr::Borrowed(text) if *text == "plain"));
    /// assert!(rt; matches!(&escaped, CowStr::Owned(text) if text.as_str() == "tab\t"));
    /// ```
    pub fn next_str_cow(&mut self, alloc: Global) -> JiterResult<CowStr<'j>>
        ensures reads { Reads (string_memory self.old.text (value_place self.old)) text_view
            (next self.old (str_read self.old)) result self.old self.new }
    {
        if let (at, Some(b'"')) = peek_for(self.parser.bytes, self.parser.index, b'"') {
            if let Ok((plain, end)) = plain_text(self.parser.bytes, at) {
                self.parser.index = end;
                return Ok(CowStr::Borrowed(plain));
            }
        }
        self.take_str(alloc)
    }

    /// Reads the string that you peeked and returns it decoded, as [`Jiter::next_str`] does.
    ///
    /// The string is borrowed from the reader: use it before the reader's next call.
    ///
    /// # Errors
    ///
    /// - the errors of [`Jiter::next_str`] after the opening quote; the reader then stays at that quote
    ///
    /// # Requires
    ///
    /// The byte at the reader's position is `"`, as after a peek of [`Peek::String`]. `rt try` does not test it.
    pub fn known_str(&mut self, alloc: Global) -> JiterResult<&str>
        requires { StandsAt self.old ascii.quote }
        ensures reads { Lends (string_memory self.old.text self.old.position) (λ x. x.now)
            (reply_seen text_bytes (known self.old (str_read self.old))) result self.old }
        ensures* after { sem 𝓛 (LeavesReader (string_memory self.old.text self.old.position) (λ x. x.now)
            (reply_seen text_bytes (known self.old (str_read self.old))) result self.entry) }
    {
        self.text = self.string(alloc, self.allow_partial_strings)?;
        Ok(self.text.as_str())
    }

    // `partial` allows an unterminated string.
    pub(super) fn raw_string(&mut self, partial: bool) -> JiterResult<&'j [u8]>
        requires { self.old.position < length self.old.text }
        ensures reads { Reads never raw_view
            (scalar_reply self.old.position (string_at (if partial then raw_kept else raw) self.old.text self.old.position))
            result self.old self.new }
    {
        self.parser.raw_string(partial).map_err(refusal)
    }

    /// Reads a string and returns the bytes between its quotes (RFC 8259, 7).
    ///
    /// The bytes are borrowed from the document. Escapes are checked and not decoded, UTF-8 is not checked, and nothing
    /// is allocated.
    ///
    /// # Errors
    ///
    /// - the errors of [`Jiter::next_str`], except `InvalidUnicodeCodePoint` and `OutOfMemory`
    /// - `EofWhileParsingString` if the input ends inside an escape, also if partial strings are allowed
    ///
    /// The reader is then at the value's first byte (or at the end, if only whitespace is left).
    pub fn next_bytes(&mut self) -> JiterResult<&'j [u8]>
        ensures reads { Reads never raw_view (next self.old (bytes_read self.old)) result self.old self.new }
    {
        let start = self.next_start()?;
        match start {
            Start::String => self.raw_string(self.allow_partial_strings),
            _ => Err(self.refused_as(JsonType::String, start)),
        }
    }

    /// Reads the string that you peeked and returns the bytes between its quotes, as [`Jiter::next_bytes`] does.
    ///
    /// # Errors
    ///
    /// - the errors of [`Jiter::next_bytes`] after the opening quote; the reader then stays at that quote
    ///
    /// # Requires
    ///
    /// The byte at the reader's position is `"`, as after a peek of [`Peek::String`]. `rt try` does not test it.
    pub fn known_bytes(&mut self) -> JiterResult<&'j [u8]>
        requires { StandsAt self.old ascii.quote }
        ensures reads { Reads never raw_view (known self.old (bytes_read self.old)) result self.old self.new }
    {
        self.raw_string(self.allow_partial_strings)
    }
}
