//! The pull reader's steps through objects.
ghost use Rattle.std.specs.Prelude.{◌≡◌, ◌≢◌, ◌<◌, ◌≤◌, ◌+◌, IfErr, IfOk, IfSome, None, OnErr, OnOk, Some, length};
ghost use Rattle.std.specs.Prelude.{option_map, slice_get};
ghost use Rattle.jiter.specs.Words.{sem, step_of, raw_view, more, step, colon, object_first, object_step, text_view};
ghost use Rattle.jiter.specs.Words.{Form, whole, raw, Text, value_place, next, known, colon_reply, member_reply, Lends};
ghost use Rattle.jiter.specs.Words.{object_read, key_step, position_after, reply_seen, key_bytes, indexed_key_bytes};
ghost use Rattle.jiter.specs.Words.{StandsAt, StandsBefore, EndsWithColon, KeyIsAt, Reads, never, key_memory};
ghost use Rattle.jiter.specs.Words.{first_key_memory, next_key_memory, LeavesReader};
ghost use Rattle.jiter_scan.specs.Ascii as ascii;

use crate::errors::{JiterResult, JsonType};
use crate::jiter::Jiter;
use crate::jiter::texts::plain_text;
use jiter_steps::parse::ContainerKind;
use jiter_steps::step::{Step, colon, first, known_next, peek_for};
use std::alloc::Global;
use std::borrow::CowStr;

impl<'j> Jiter<'j> {
    // Finds the first member of the object that comes next, or its end. Returns as the error where another value begins.
    #[inline(always)]
    fn first_member(&self) -> Result<(usize, Step), usize>
        ensures step { IfOk result
            (λ found. step self.now.text object_first (value_place self.now + 1) ≡ step_of found.0 found.1) }
        ensures within { IfOk result (λ found. (self.now.position ≤ found.0) × (found.0 ≤ length self.now.text)) }
        ensures part { IfOk result (λ found. found.1 ≡ Step.Part → found.0 < length self.now.text) }
        ensures brace { OnOk result (slice_get self.now.text (value_place self.now) ≡ Some ascii.left_brace) }
        ensures place { IfErr result (λ at. at ≡ value_place self.now) }
        ensures ahead { IfErr result (λ at. (self.now.position ≤ at) × (at ≤ length self.now.text)) }
        ensures other { OnErr result (slice_get self.now.text (value_place self.now) ≢ Some ascii.left_brace) }
    {
        match peek_for(self.parser.bytes, self.parser.index, b'{') {
            (at, Some(b'{')) => Ok(first(self.parser.bytes, at + 1, ContainerKind::Object)),
            (at, _) => Err(at),
        }
    }

    // Fails at `at`, where another value begins. Nothing is assigned, so that the prover sees the reader as borrowed.
    #[inline(always)]
    fn no_object(&mut self, at: usize) -> JiterResult<Option<&str>>
        requires place { at ≡ value_place self.old }
        requires within { (self.old.position ≤ at) × (at ≤ length self.old.text) }
        requires other { slice_get self.old.text (value_place self.old) ≢ Some ascii.left_brace }
        ensures reads { Lends (first_key_memory self.old.text (value_place self.old)) (option_map (λ x. x.now))
            (reply_seen key_bytes (next self.old (object_read whole self.old))) result self.old }
        ensures colon { EndsWithColon result self.old.text
            (position_after (next self.old (object_read whole self.old))) }
        ensures* after { sem 𝓛 (LeavesReader (first_key_memory self.old.text (value_place self.old)) (option_map (λ x. x.now))
            (reply_seen key_bytes (next self.old (object_read whole self.old))) result self.entry) }
    {
        self.text = Err(self.stop_at(JsonType::Object, at))?;
        Ok(Some(self.text.as_str()))
    }

    // Moves past the colon and returns `key`. `from` is after the key.
    #[inline(always)]
    fn past_colon<K: Drop>(&mut self, from: usize, key: K) -> JiterResult<K>
        requires { (self.old.position ≤ from) × (from ≤ length self.old.text) }
        ensures reads { (text : Text) → Reads never (λ _. Some text)
            (colon_reply text (step self.old.text colon from)) result self.old self.new }
        ensures key { IfOk result (λ k. k ≡ key) }
        ensures colon { OnOk result (StandsBefore self.old.text self.new.position ascii.colon) }
    {
        match colon(self.parser.bytes, from) {
            (end, None) => {
                self.parser.index = end;
                Ok(key)
            }
            (at, Some(kind)) => self.stop(kind, at),
        }
    }

    // Reads the key that a step found and its colon, or returns the end or the error that it found. Returns `None` and
    // stays if the key is not in the document as it is, or its string has an error.
    #[inline(always)]
    fn plain_key(&mut self, found: (usize, Step)) -> Option<JiterResult<Option<&'j str>>>
        requires within { (self.old.position ≤ found.0) × (found.0 ≤ length self.old.text) }
        requires part { found.1 ≡ Step.Part → found.0 < length self.old.text }
        ensures reads { IfSome result (λ read. Reads never (option_map (λ x. x.now))
            (reply_seen key_bytes (member_reply whole self.old.text (step_of found.0 found.1))) read self.old self.new) }
        ensures colon { IfSome result (λ read. EndsWithColon read self.old.text self.new.position) }
        ensures index { IfSome result (λ read. IfOk read (λ key. IfSome key (λ _. found.1 ≡ Step.Part))) }
        ensures part { result ≡ None → found.1 ≡ Step.Part }
        ensures same { result ≡ None → self.new ≡ self.old }
    {
        match found {
            (at, Step::Part) => {
                let Ok((key, end)) = plain_text(self.parser.bytes, at) else {
                    return None;
                };
                Some(self.past_colon(end, Some(key)))
            }
            (at, Step::End) => {
                self.parser.index = at;
                Some(Ok(None))
            }
            (at, Step::Fault(kind)) => Some(self.stop(kind, at)),
        }
    }

    // Reads the key at `at` and its colon.
    #[inline(never)]
    fn take_key(&mut self, alloc: Global, at: usize) -> JiterResult<CowStr<'j>>
        requires { (self.old.position ≤ at) × (at < length self.old.text) }
        ensures reads { Reads (key_memory self.old.text (more at)) (λ key. Some (text_view key))
            (member_reply whole self.old.text (more at)) result self.old self.new }
        ensures colon { OnOk result (StandsBefore self.old.text self.new.position ascii.colon) }
    {
        self.parser.index = at;
        let text = self.string(alloc, false)?;
        self.past_colon(self.parser.index, text)
    }

    // A function of its own: otherwise the fast path would reserve stack space for the result of `take_key`.
    #[inline(always)]
    fn slow_key(&mut self, alloc: Global, at: usize) -> JiterResult<Option<&str>>
        requires { (self.old.position ≤ at) × (at < length self.old.text) }
        ensures reads { Lends (key_memory self.old.text (more at)) (option_map (λ x. x.now))
            (reply_seen key_bytes (member_reply whole self.old.text (more at))) result self.old }
        ensures colon { EndsWithColon result self.old.text (position_after (member_reply whole self.old.text (more at))) }
        ensures* after { sem 𝓛 (LeavesReader (key_memory self.old.text (more at)) (option_map (λ x. x.now))
            (reply_seen key_bytes (member_reply whole self.old.text (more at))) result self.entry) }
    {
        self.text = self.take_key(alloc, at)?;
        Ok(Some(self.text.as_str()))
    }

    #[inline(always)]
    fn key(&mut self, alloc: Global, found: (usize, Step)) -> JiterResult<Option<&str>>
        requires within { (self.old.position ≤ found.0) × (found.0 ≤ length self.old.text) }
        requires part { found.1 ≡ Step.Part → found.0 < length self.old.text }
        ensures reads { Lends (key_memory self.old.text (step_of found.0 found.1)) (option_map (λ x. x.now))
            (reply_seen key_bytes (member_reply whole self.old.text (step_of found.0 found.1))) result self.old }
        ensures colon { EndsWithColon result self.old.text
            (position_after (member_reply whole self.old.text (step_of found.0 found.1))) }
        ensures* after { sem 𝓛 (LeavesReader (key_memory self.old.text (step_of found.0 found.1)) (option_map (λ x. x.now))
            (reply_seen key_bytes (member_reply whole self.old.text (step_of found.0 found.1))) result self.entry) }
    {
        match self.plain_key(found) {
            Some(Ok(Some(key))) => Ok(Some(key)),
            Some(Ok(None)) => Ok(None),
            Some(Err(error)) => Err(error),
            None => self.slow_key(alloc, found.0),
        }
    }

    #[inline(always)]
    fn key_cow(
        &mut self,
        alloc: Global,
        found: (usize, Step),
    ) -> JiterResult<Option<(CowStr<'j>, usize)>>
        requires within { (self.old.position ≤ found.0) × (found.0 ≤ length self.old.text) }
        requires part { found.1 ≡ Step.Part → found.0 < length self.old.text }
        ensures reads { Reads (key_memory self.old.text (step_of found.0 found.1)) (option_map indexed_key_bytes)
            (reply_seen key_bytes (member_reply whole self.old.text (step_of found.0 found.1)))
            result self.old self.new }
        ensures colon { EndsWithColon result self.old.text self.new.position }
        ensures index { KeyIsAt (step_of found.0 found.1) result }
    {
        match self.plain_key(found) {
            Some(Ok(Some(text))) => Ok(Some((CowStr::Borrowed(text), found.0))),
            Some(Ok(None)) => Ok(None),
            Some(Err(error)) => Err(error),
            None => {
                let text = self.take_key(alloc, found.0)?;
                Ok(Some((text, found.0)))
            }
        }
    }

    fn key_bytes(&mut self, found: (usize, Step)) -> JiterResult<Option<&'j [u8]>>
        requires within { (self.old.position ≤ found.0) × (found.0 ≤ length self.old.text) }
        requires part { found.1 ≡ Step.Part → found.0 < length self.old.text }
        ensures reads { Reads never (option_map raw_view)
            (member_reply raw self.old.text (step_of found.0 found.1)) result self.old self.new }
        ensures colon { EndsWithColon result self.old.text self.new.position }
    {
        match found {
            (at, Step::Part) => {
                self.parser.index = at;
                let content = self.raw_string(false)?;
                self.past_colon(self.parser.index, Some(content))
            }
            (at, Step::End) => {
                self.parser.index = at;
                Ok(None)
            }
            (at, Step::Fault(kind)) => self.stop(kind, at),
        }
    }

    /// Steps into the next object and returns the bytes of its first key, or `None` if it is empty (RFC 8259, 4).
    ///
    /// The bytes are those between the quotes, borrowed from the document. Escapes are checked and not decoded, UTF-8
    /// is not checked, and nothing is allocated. The key's colon is consumed, and so is the closing brace of an empty
    /// object.
    ///
    /// # Errors
    ///
    /// - the errors of [`Jiter::next_object`], except `InvalidUnicodeCodePoint` and `OutOfMemory`; they leave the
    ///   reader at the same position
    pub fn next_object_bytes(&mut self) -> JiterResult<Option<&'j [u8]>>
        ensures reads { Reads never (option_map raw_view) (next self.old (object_read raw self.old))
            result self.old self.new }
        ensures colon { EndsWithColon result self.old.text self.new.position }
    {
        match self.first_member() {
            Ok(first) => self.key_bytes(first),
            Err(at) => Err(self.stop_at(JsonType::Object, at)),
        }
    }

    /// Moves past the comma after a member and returns the bytes of the next key, or `None` at the object's end
    /// (RFC 8259, 4).
    ///
    /// The bytes are those between the quotes, borrowed from the document. Escapes are checked and not decoded, UTF-8
    /// is not checked, and nothing is allocated. The key's colon is consumed, and so is the closing brace of the
    /// object.
    ///
    /// # Errors
    ///
    /// - the errors of [`Jiter::next_key`], except `InvalidUnicodeCodePoint` and `OutOfMemory`; they leave the reader
    ///   at the same position
    pub fn next_key_bytes(&mut self) -> JiterResult<Option<&'j [u8]>>
        ensures reads { Reads never (option_map raw_view) (key_step raw self.old) result self.old self.new }
        ensures colon { EndsWithColon result self.old.text self.new.position }
    {
        let next = known_next(self.parser.bytes, self.parser.index, ContainerKind::Object);
        self.key_bytes(next)
    }

    /// Steps into the next object and returns its first key, decoded, or `None` if it is empty (RFC 8259, 4).
    ///
    /// The key is borrowed from the reader: use it before the reader's next call, or call [`Jiter::next_object_bytes`].
    /// The key's colon is consumed, and so is the closing brace of an empty object.
    ///
    /// # Errors
    ///
    /// - `WrongType` if the next value has another type; a number with an error of its own is reported as that error
    /// - `ExpectedSomeValue` if the next byte begins no value
    /// - `EofWhileParsingValue` if only whitespace is left
    /// - `KeyMustBeAString` if neither `"` nor `}` follows the opening brace
    /// - `EofWhileParsingObject` if the input ends before the key, or before its colon
    /// - `ExpectedColon` if the key isn't followed by a colon
    /// - any error of the key's string, as in [`Jiter::next_str`]; an unterminated key is an error with every setting
    /// - `OutOfMemory`, only for a key with a backslash
    ///
    /// After the first three the reader is at the value's first byte (or at the end). After an error of the key's
    /// string, or `OutOfMemory`, it is at the key's opening quote. Otherwise it is at the error.
    ///
    /// The opening brace is consumed when memory runs out. To be able to try again, clone the reader before the call.
    pub fn next_object(&mut self, alloc: Global) -> JiterResult<Option<&str>>
        ensures reads { Lends (first_key_memory self.old.text (value_place self.old)) (option_map (λ x. x.now))
            (reply_seen key_bytes (next self.old (object_read whole self.old))) result self.old }
        ensures colon { EndsWithColon result self.old.text
            (position_after (next self.old (object_read whole self.old))) }
        ensures* after { sem 𝓛 (LeavesReader (first_key_memory self.old.text (value_place self.old)) (option_map (λ x. x.now))
            (reply_seen key_bytes (next self.old (object_read whole self.old))) result self.entry) }
    {
        match self.first_member() {
            Ok(first) => self.key(alloc, first),
            Err(at) => self.no_object(at),
        }
    }

    /// Steps into the object that you peeked, as [`Jiter::next_object`] does.
    ///
    /// The key is borrowed from the reader: use it before the reader's next call.
    ///
    /// # Errors
    ///
    /// - the errors of [`Jiter::next_object`] after the opening brace; they leave the reader at the same position
    ///
    /// # Requires
    ///
    /// The byte at the reader's position is `{`, as after a peek of [`Peek::Object`]. `rt try` does not test it.
    pub fn known_object(&mut self, alloc: Global) -> JiterResult<Option<&str>>
        requires { StandsAt self.old ascii.left_brace }
        ensures reads { Lends (first_key_memory self.old.text self.old.position) (option_map (λ x. x.now))
            (reply_seen key_bytes (known self.old (object_read whole self.old))) result self.old }
        ensures colon { EndsWithColon result self.old.text
            (position_after (known self.old (object_read whole self.old))) }
        ensures* after { sem 𝓛 (LeavesReader (first_key_memory self.old.text self.old.position) (option_map (λ x. x.now))
            (reply_seen key_bytes (known self.old (object_read whole self.old))) result self.entry) }
    {
        let from = self.parser.index + 1;
        let found = first(self.parser.bytes, from, ContainerKind::Object);
        self.key(alloc, found)
    }

    /// Moves past the comma after a member and returns the next key, decoded, or `None` at the object's end
    /// (RFC 8259, 4).
    ///
    /// The key is borrowed from the reader: use it before the reader's next call, or call [`Jiter::next_key_bytes`].
    /// The key's colon is consumed, and so is the closing brace of the object.
    ///
    /// # Errors
    ///
    /// - `ExpectedObjectCommaOrEnd` if the next byte is neither a comma nor `}`
    /// - `TrailingComma` if `}` follows the comma
    /// - `KeyMustBeAString` if another byte than `"` follows the comma
    /// - `EofWhileParsingObject` if the input ends before a comma or `}`, or before the key's colon
    /// - `EofWhileParsingValue` if the input ends after the comma
    /// - `ExpectedColon` if the key isn't followed by a colon
    /// - any error of the key's string, as in [`Jiter::next_str`]; an unterminated key is an error with every setting
    /// - `OutOfMemory`, only for a key with a backslash
    ///
    /// After an error of the key's string, or `OutOfMemory`, the reader is at the key's opening quote. Otherwise it is
    /// at the error.
    ///
    /// The comma is consumed when memory runs out. To be able to try again, clone the reader before the call.
    pub fn next_key(&mut self, alloc: Global) -> JiterResult<Option<&str>>
        ensures reads { Lends (next_key_memory self.old) (option_map (λ x. x.now))
            (reply_seen key_bytes (key_step whole self.old)) result self.old }
        ensures colon { EndsWithColon result self.old.text (position_after (key_step whole self.old)) }
        ensures* after { sem 𝓛 (LeavesReader (next_key_memory self.old) (option_map (λ x. x.now))
            (reply_seen key_bytes (key_step whole self.old)) result self.entry) }
    {
        let next = known_next(self.parser.bytes, self.parser.index, ContainerKind::Object);
        self.key(alloc, next)
    }

    /// Steps into the next object and returns its first key and the key's index, or `None` if it is empty
    /// (RFC 8259, 4).
    ///
    /// The index is that of the key's opening quote. The key borrows from the document, not from the reader, so you can
    /// keep it while you read on. Only a key with an escape is copied. Otherwise this is [`Jiter::next_object`].
    ///
    /// # Errors
    ///
    /// - the errors of [`Jiter::next_object`]; they leave the reader at the same position
    pub fn next_object_cow(&mut self, alloc: Global) -> JiterResult<Option<(CowStr<'j>, usize)>>
        ensures reads { Reads (first_key_memory self.old.text (value_place self.old)) (option_map indexed_key_bytes)
            (reply_seen key_bytes (next self.old (object_read whole self.old))) result self.old self.new }
        ensures colon { EndsWithColon result self.old.text self.new.position }
        ensures index { KeyIsAt (step self.old.text object_first (value_place self.old + 1)) result }
    {
        match self.first_member() {
            Ok(first) => self.key_cow(alloc, first),
            Err(at) => Err(self.stop_at(JsonType::Object, at)),
        }
    }

    /// Moves past the comma after a member and returns the next key and its index, or `None` at the object's end
    /// (RFC 8259, 4).
    ///
    /// The index is that of the key's opening quote. The key borrows from the document, not from the reader, so you can
    /// keep it while you read on. Only a key with an escape is copied. Otherwise this is [`Jiter::next_key`].
    ///
    /// # Errors
    ///
    /// - the errors of [`Jiter::next_key`]; they leave the reader at the same position
    pub fn next_key_cow(&mut self, alloc: Global) -> JiterResult<Option<(CowStr<'j>, usize)>>
        ensures reads { Reads (next_key_memory self.old) (option_map indexed_key_bytes)
            (reply_seen key_bytes (key_step whole self.old)) result self.old self.new }
        ensures colon { EndsWithColon result self.old.text self.new.position }
        ensures index { KeyIsAt (step self.old.text (object_step self.old.text) self.old.position) result }
    {
        let next = known_next(self.parser.bytes, self.parser.index, ContainerKind::Object);
        self.key_cow(alloc, next)
    }
}
