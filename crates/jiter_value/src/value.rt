//! The tree of a document (`JsonValue`), and the calls that parse one.
ghost use Rattle.std.specs.Prelude.{◌≡◌, IfOk, MatchResult, Some, Bool, ℕ, List, true};
ghost use Rattle.jiter_value.specs.Words.{is_active, answer, answer_in, cut, IsBegunContainer, Node};
ghost use Rattle.jiter_value.specs.Words.{IsDocument, value_of, Parses, as_read, view, Answers, MayGrow};

pub mod access;
pub mod copies;
pub mod equality;
pub mod pointer;
pub(crate) mod quoted;

use crate::parse::reading::read_text;
use crate::parse::settings::Settings;
use crate::parse::turns::Reading;
use jiter_scan::{JsonError, JsonErrorType, PartialMode};
use std::alloc::Global;
use std::borrow::CowStr;

/// The items of an array, in source order.
pub type JsonArray<'s> = Vec<JsonValue<'s>>;

/// The members of an object, in source order. A duplicate key has a member for each time that it was written.
pub type JsonObject<'s> = Vec<(CowStr<'s>, JsonValue<'s>)>;

/// A JSON value (RFC 8259, 3).
///
/// [`JsonValue::parse`] borrows each string, key and number text from the input, unless its source has a backslash.
/// [`JsonValue::parse_owned`] returns a value that owns them all.
///
/// The type has its own `Drop`, so a pattern can't move a part out of it: match on a reference. To move the parts out,
/// call [`JsonValue::into_array`], [`JsonValue::into_object`] or [`JsonValue::into_str`].
///
/// # Examples
///
/// ```rust
/// match &JsonValue::parse(alloc, b"[1, 2]", false)? {
///     JsonValue::Array(items) => assert_eq!(rt; items.len(), 2),
///     _ => {}
/// }
/// ```
#[derive(Debug)]
pub enum JsonValue<'s> {
    /// `null`
    Null,
    /// `true` or `false`
    Bool(bool),
    /// An integer that fits in 64 signed bits.
    Int(i64),
    /// Any other integer, as its source text.
    BigInt(CowStr<'s>),
    /// A number with a decimal point or an exponent, or a non-finite number, as its source text.
    Float(CowStr<'s>),
    /// A string, decoded.
    Str(CowStr<'s>),
    /// An array.
    Array(JsonArray<'s>),
    /// An object.
    Object(JsonObject<'s>),
}

impl<'s> Drop for JsonValue<'s> {
    #[cycle(drop)]
    #[inline(always)]
    fn drop(self) {
        match self {
            JsonValue::Null => {}
            JsonValue::Bool(_) => {}
            JsonValue::Int(_) => {}
            JsonValue::BigInt(text) => drop_text(text),
            JsonValue::Float(text) => drop_text(text),
            JsonValue::Str(text) => drop_text(text),
            JsonValue::Array(items) => drop_items(items),
            JsonValue::Object(members) => drop_members(members),
        }
    }
}

#[inline(always)]
fn drop_text(text: CowStr<'_>) {
    match text {
        CowStr::Borrowed(_) => {}
        CowStr::Owned(owned) => drop_owned(owned),
    }
}

#[inline(never)]
fn drop_owned(text: String) {
    drop(text);
}

#[cycle(drop)]
#[inline(never)]
fn drop_items(items: JsonArray<'_>) {
    let mut rest = items;
    while let Some(item) = rest.pop() {
        drop(item);
    }
    drop(rest);
}

#[cycle(drop)]
#[inline(never)]
fn drop_members(members: JsonObject<'_>) {
    let mut rest = members;
    while let Some((key, value)) = rest.pop() {
        drop(value);
        drop(key);
    }
    drop(rest);
}

impl<'j> JsonValue<'j> {
    /// Parses bytes as one JSON document (RFC 8259, 2) and returns its value.
    ///
    /// With `allow_inf_nan`, `NaN`, `Infinity` and `-Infinity` are numbers too. A string, key or number text is
    /// borrowed from the bytes exactly if its source has no backslash.
    ///
    /// # Errors
    ///
    /// - the first error that a reading from the left meets: any [`JsonErrorType`] except `FloatExpectingInt`. The
    ///   index of an `Eof` kind is the length.
    /// - `OutOfMemory`, only for a string with a backslash or a non-empty container. The index is where the parse
    ///   stopped, at or after the value's first byte.
    ///
    /// # Examples
    ///
    /// ```rust
    /// let value = JsonValue::parse(alloc, br#"{"ports": [80, 443]}"#, false)?;
    /// assert_eq!(rt; value.pointer("/ports/0").and_then(|port| port.as_i64()), Some(80));
    /// ```
    pub fn parse(
        alloc: Global,
        bytes: &'j [u8],
        allow_inf_nan: bool,
    ) -> Result<JsonValue<'j>, JsonError>
        // A value is returned only for a document, and is that document's. Each text is marked as borrowed or owned.
        ensures found { IfOk result (λ v. (n : Node) × IsDocument allow_inf_nan bytes.now n
            × (value_of bytes.now n ≡ view v)) }
        // A document gives its value, unless an allocation fails.
        ensures only { (n : Node) → IsDocument allow_inf_nan bytes.now n → MatchResult result
            (λ v. view v ≡ value_of bytes.now n) (λ e. e.error_type ≡ JsonErrorType.OutOfMemory) }
        // Which error it is: the first one of a reading from the left.
        ensures first { Answers result (answer allow_inf_nan bytes.now) }
        // What every parse promises: also where its errors are and when it may run out of memory.
        ensures parses { Parses as_read (MayGrow bytes.now) allow_inf_nan PartialMode.Off bytes.now
            result }
    {
        JsonValue::parse_with_config(alloc, bytes, allow_inf_nan, PartialMode::Off)
    }

    /// Parses bytes as [`JsonValue::parse`] does. In a partial mode it also accepts a truncated document.
    ///
    /// In a partial mode:
    ///
    /// - A container ends where the input ends, or where a value is followed by neither a comma nor the closing
    ///   bracket.
    /// - It leaves out a truncated literal, a key without its value, and a number that isn't one yet (`12.`).
    /// - With `On` it leaves out a truncated string too. `TrailingStrings` keeps the string's complete characters.
    /// - Bytes after the value are not read.
    ///
    /// # Errors
    ///
    /// - any error of [`JsonValue::parse`]; in a partial mode never `ExpectedListCommaOrEnd`,
    ///   `ExpectedObjectCommaOrEnd` or `TrailingCharacters`, and an `Eof` kind only if no container has begun
    /// - `OutOfMemory`, as for [`JsonValue::parse`]
    ///
    /// # Examples
    ///
    /// ```rust
    /// let bytes = br#"[12, "a b", {"k": tru"#;
    /// let value = JsonValue::parse_with_config(alloc, bytes, false, PartialMode::On)?;
    /// assert_eq!(rt; value.pointer("/1").and_then(|item| item.as_str()), Some("a b"));
    /// ```
    pub fn parse_with_config(
        alloc: Global,
        bytes: &'j [u8],
        allow_inf_nan: bool,
        allow_partial: PartialMode,
    ) -> Result<JsonValue<'j>, JsonError>
        // With partial reading off, a value is returned only for a document, and is that document's.
        ensures found { allow_partial ≡ PartialMode.Off → IfOk result (λ v. (n : Node)
            × IsDocument allow_inf_nan bytes.now n × (value_of bytes.now n ≡ view v)) }
        // In every mode a document gives its value, unless an allocation fails.
        ensures accepts { (n : Node) → IsDocument allow_inf_nan bytes.now n → MatchResult result
            (λ v. view v ≡ value_of bytes.now n) (λ e. e.error_type ≡ JsonErrorType.OutOfMemory) }
        // At most one node fits the bytes.
        ensures one { (n m : Node) → IsDocument allow_inf_nan bytes.now n
            → IsDocument allow_inf_nan bytes.now m → n ≡ m }
        // In a partial mode, a prefix of an array or object that holds its first bracket gives exactly the document cut
        // there, unless an allocation fails.
        ensures cut { is_active allow_partial ≡ true → (f : IsBegunContainer allow_inf_nan bytes.now)
            → MatchResult result
            (λ v. cut allow_inf_nan f.text f.node f.place allow_partial ≡ Some (view v))
            (λ e. e.error_type ≡ JsonErrorType.OutOfMemory) }
        // On any bytes: what a reading from the left gives in this mode.
        ensures answer { Answers result (answer_in allow_inf_nan allow_partial bytes.now) }
        // With partial reading off: which error it is, the first one of that reading.
        ensures first { allow_partial ≡ PartialMode.Off
            → Answers result (answer allow_inf_nan bytes.now) }
        // What every parse promises: also where its errors are and when it may run out of memory.
        ensures parses { Parses as_read (MayGrow bytes.now) allow_inf_nan allow_partial bytes.now
            result }
    {
        let settings = Settings {
            allow_inf_nan,
            mode: allow_partial,
        };
        let mut reading = Reading::new(alloc, settings);
        read_text(&mut reading, bytes)
    }
}

/// Adds to your proof that at most one `Node` fits the bytes of a document.
///
/// Does nothing at run time.
pub fn a_document_has_one_node()
    ensures { (names : Bool) → (t : List ℕ) → (n m : Node) → IsDocument names t n
        → IsDocument names t m → n ≡ m }
{}
