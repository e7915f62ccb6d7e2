//! Reads strings (RFC 8259, 7 and 8.1). A string without a backslash is borrowed from the input; any other is decoded.
ghost use Rattle.std.specs.Prelude.{◌≡◌, ◌≢◌, ℕ, Bool, ◌+◌, ◌^◌, ◌<◌, ◌≤◌, length, true, false, List, slice_get, IfOk};
ghost use Rattle.std.specs.Prelude.{slice_range, IfErr, IfSome, IsTrue, MatchResult, Some, None, drop, take, vec_len};
ghost use Rattle.std.specs.Prelude.{IsUtf8, encode_utf8};
ghost use Rattle.jiter_steps.specs.Words.{IsValidUpTo, is_stop, scan_stop, IsAsciiTo, IsLook, fault_kind, Scans, taken};
ghost use Rattle.jiter_steps.specs.Words.{invalid_code_point, with_end, failed, UnlessRefused, WhereRefused, body_at};
ghost use Rattle.jiter_steps.specs.Words.{event_at, over, part, text_form, text_in_form, checked, string_at, text_view};
ghost use Rattle.jiter_steps.specs.Words.{stop_view, Decodes, PutsEscape, WantsMemory};

use crate::escape::{StringEnd, StringEvent, event_at, fast_escape_at};
use crate::read_error::ReadError;
use crate::utf8::valid_utf8_end;
use jiter_scan::bytes::decode_buffer::{put_char, put_first};
use jiter_scan::bytes::short_scan::{Look, look_at};
use jiter_scan::bytes::simd::copy_plain;
use jiter_scan::errors::{Fault, FaultKind, fault_at};
use jiter_scan::memory::{AllocFailed, copy_text};
use jiter_scan::text::utf8_text;
use std::alloc::Global;
use std::borrow::CowStr;

// The general case: an escape's character and the index after it. The error is how the string ends.
#[inline(always)]
fn slow_escape_at(bytes: &[u8], stop: usize) -> Result<(char, usize), StringEnd>
    requires { IfSome (slice_get bytes.now stop) (λ b. is_stop b ≡ true) }
    ensures { MatchResult result (λ r. part (encode_utf8 r.0) true r.1 ≡ event_at bytes.now stop)
        (λ s. over (stop_view s) ≡ event_at bytes.now stop) }
{
    match event_at(bytes, stop) {
        StringEvent::Escape(c, after) => Ok((c, after)),
        StringEvent::End(ending) => Err(ending),
    }
}

// Puts the character of the escape at `stop` after the first `end` bytes of the buffer. Returns the index after the
// escape, and how many bytes count then. The error is how the string ends, if no escape is there.
#[inline(always)]
#[tactic(auto, unfolding(crate::specs::StringReading::event_at))]
fn put_escape(
    buffer: &mut Vec<u8>,
    end: usize,
    bytes: &[u8],
    stop: usize,
) -> Result<(usize, usize), StringEnd>
    requires within { stop ≤ length bytes.now }
    requires stop { IfSome (slice_get bytes.now stop) (λ b. is_stop b ≡ true) }
    requires room { end + 4 ≤ vec_len buffer.old }
    ensures put { IfOk result (λ r. PutsEscape bytes.now stop (take end buffer.old.items) (take r.1 buffer.new.items) r.0) }
    ensures place { IfOk result (λ r. r.1 ≤ vec_len buffer.new) }
    ensures ending { IfErr result (λ s. over (stop_view s) ≡ event_at bytes.now stop) }
    ensures same { IfErr result (λ _. buffer.new ≡ buffer.old) }
{
    let (sign, found) = fast_escape_at(bytes, stop);
    if sign != 0 {
        buffer[end] = sign;
        return Ok((stop + 2, end + 1));
    }
    if let Some(c) = found {
        return Ok((stop + 6, put_char(buffer, end, c)));
    }
    if stop < bytes.len() && bytes[stop] == b'"' {
        return Err(StringEnd::Closed(stop + 1));
    }
    let (c, after) = slow_escape_at(bytes, stop)?;
    Ok((after, put_char(buffer, end, c)))
}

// Decodes the string whose first byte is at `from`. Its bytes before `stop` are plain, and `ascii` if below 80 hex.
// Returns how many bytes it has in the buffer, whether they are known to be UTF-8, and how the string ends.
#[inline(always)]
fn decode_on(
    buffer: &mut Vec<u8>,
    bytes: &[u8],
    from: usize,
    stop: usize,
    ascii: bool,
) -> Result<(usize, bool, StringEnd), AllocFailed>
    requires within { from ≤ length bytes.now }
    requires stop { stop ≡ scan_stop bytes.now from }
    requires ascii { IsTrue ascii → IsAsciiTo bytes.now from stop }
    ensures text { IfOk result (λ r. take r.0 buffer.new.items ≡ (body_at bytes.now from).bytes) }
    ensures utf8 { IfOk result (λ r. IsTrue r.1 → IsUtf8 (take r.0 buffer.new.items)) }
    ensures within { IfOk result (λ r. r.0 ≤ vec_len buffer.new) }
    ensures stop { IfOk result (λ r. stop_view r.2 ≡ (body_at bytes.now from).stop) }
{
    let mut stop = stop;
    let mut end = put_first(buffer, bytes, from, stop)?;
    let mut known = ascii;
    loop {
        match put_escape(buffer, end, bytes, stop) {
            Ok((at, count)) => {
                let (next, filled, low) = copy_plain(buffer, count, bytes, at)?;
                stop = next;
                end = filled;
                known &= low;
            }
            Err(ending) => return Ok((end, known, ending)),
        }
    }
}

// Returns how many bytes belong to the string. With `partial`, those of an incomplete character at the end do not. The
// error is the number of bytes before the wrong one.
#[inline(always)]
fn checked_count(content: &[u8], known: bool, partial: bool) -> Result<usize, usize>
    requires { IsTrue known → IsUtf8 content.now }
    ensures value { (i e : ℕ) → (owned : Bool) → MatchResult result
        (λ n. checked partial i owned content.now e
        ≡ taken (record { owned = owned; bytes = take n content.now }) e)
        (λ n. checked partial i owned content.now e ≡ failed invalid_code_point (i + n)) }
    ensures text { IfOk result (λ n. IsUtf8 (take n content.now)) }
    ensures prefix { IfOk result (λ n. n ≤ length content.now) }
    ensures within { IfErr result (λ n. n ≤ length content.now) }
{
    if known {
        return Ok(content.len());
    }
    let (count, wrong) = valid_utf8_end(content);
    if wrong {
        return Err(count);
    }
    if partial {
        return Ok(count);
    }
    if count == content.len() {
        Ok(count)
    } else {
        Err(count)
    }
}

/// Returns the text from `from` up to before `to`, if it is UTF-8 (RFC 8259, 8.1), and otherwise the index of the error.
/// With `partial`, an incomplete character at its end is left out.
///
/// # Requires
///
/// - `from` is at most `to`, and `to` at most the length.
#[inline(always)]
pub fn checked_text<'j>(
    bytes: &'j [u8],
    from: usize,
    to: usize,
    partial: bool,
) -> Result<&'j str, usize>
    requires { (from ≤ to) × (to ≤ length bytes.now) }
    ensures value { (e : ℕ) → MatchResult result
        (λ text. checked partial from false (slice_range bytes.now from to) e
        ≡ taken (record { owned = false; bytes = text.now }) e)
        (λ i. checked partial from false (slice_range bytes.now from to) e ≡ failed invalid_code_point i) }
    ensures within { IfErr result (λ i. (from ≤ i) × (i ≤ to)) }
{
    let content = &bytes[from..to];
    match checked_count(content, false, partial) {
        Ok(count) => Ok(utf8_text(&content[..count])),
        Err(right) => Err(from + right),
    }
}

// For a string without a backslash.
#[inline(always)]
fn borrow_text<'j>(
    bytes: &'j [u8],
    from: usize,
    to: usize,
    end: usize,
    partial: bool,
) -> Result<(CowStr<'j>, usize), ReadError>
    requires { (from ≤ to) × (to ≤ length bytes.now) }
    ensures value { UnlessRefused result (λ r. Scans (with_end text_view) r
        (checked partial from false (slice_range bytes.now from to) end)) }
    ensures memory { WhereRefused result ⊥ }
{
    match checked_text(bytes, from, to, partial) {
        Ok(text) => Ok((CowStr::Borrowed(text), end)),
        Err(index) => Err(ReadError::Fault(fault_at(FaultKind::InvalidUnicodeCodePoint, index))),
    }
}

#[cold]
pub(crate) fn cut_short(bytes: &[u8]) -> Fault
    ensures { result ≡ record {
      kind = FaultKind.EofWhileParsingString;
      index = length bytes.now;
    } }
{
    Fault {
        kind: FaultKind::EofWhileParsingString,
        index: bytes.len(),
    }
}

// With `partial`, a string may end with the input.
#[tactic(auto, using(crate::proofs::Calls::StringAnswers::string_closed))]
fn text_end(bytes: &[u8], ending: StringEnd, partial: bool) -> Result<usize, Fault>
    ensures { (i : ℕ) → (bs : List ℕ) → (owned : Bool) → MatchResult result
        (λ e. text_in_form (text_form partial) bytes.now i bs owned (stop_view ending) ≡ checked partial i owned bs e)
        (λ f. text_in_form (text_form partial) bytes.now i bs owned (stop_view ending)
        ≡ failed (fault_kind f.kind) f.index) }
{
    match ending {
        StringEnd::Closed(end) => Ok(end),
        StringEnd::Wrong(fault) => Err(fault),
        StringEnd::Unclosed if partial => Ok(bytes.len()),
        StringEnd::Unclosed => Err(cut_short(bytes)),
        StringEnd::Cut if partial => Ok(bytes.len()),
        StringEnd::Cut => Err(cut_short(bytes)),
    }
}

/// Does what [`decode`] does, and is inlined. A parse decodes its values with it.
#[inline(always)]
pub fn decode_inline(
    buffer: &mut Vec<u8>,
    bytes: &[u8],
    at: usize,
    stop: usize,
    ascii: bool,
    partial: bool,
) -> Result<(usize, usize), ReadError>
    requires within { at < length bytes.now }
    requires stop { stop ≡ scan_stop bytes.now (at + 1) }
    requires escaped { IsLook bytes.now (at + 1) stop (Look.Escaped ascii) }
    ensures { Decodes bytes.now at partial buffer.new.items (vec_len buffer.new) result }
{
    let (count, known, ending) = decode_on(buffer, bytes, at + 1, stop, ascii)?;
    let end = text_end(bytes, ending, partial)?;
    match checked_count(&buffer.as_slice()[..count], known, partial) {
        Ok(fit) => Ok((fit, end)),
        Err(right) => {
            let fault = fault_at(FaultKind::InvalidUnicodeCodePoint, at + 1 + right);
            Err(ReadError::Fault(fault))
        }
    }
}

/// Decodes the string at `at` to the beginning of the buffer. Its first backslash is at `stop`, and `ascii` says whether
/// all bytes before it are below 80 hex, as [`look_at`] reports them. Returns how many bytes the string has in the buffer,
/// and the index after its closing quote. Fails as [`string_at`] does, and `partial` means the same.
///
/// It isn't inlined: all callers share one copy of [`decode_inline`].
///
/// # Requires
///
/// - `stop` and `ascii` are what [`look_at`] returns for `at + 1`.
#[inline(never)]
pub fn decode(
    buffer: &mut Vec<u8>,
    bytes: &[u8],
    at: usize,
    stop: usize,
    ascii: bool,
    partial: bool,
) -> Result<(usize, usize), ReadError>
    requires within { at < length bytes.now }
    requires stop { stop ≡ scan_stop bytes.now (at + 1) }
    requires escaped { IsLook bytes.now (at + 1) stop (Look.Escaped ascii) }
    ensures { Decodes bytes.now at partial buffer.new.items (vec_len buffer.new) result }
{
    decode_inline(buffer, bytes, at, stop, ascii, partial)
}

// For a string with a backslash.
#[inline(always)]
fn decode_text<'j>(
    alloc: Global,
    buffer: &mut Vec<u8>,
    bytes: &'j [u8],
    at: usize,
    stop: usize,
    ascii: bool,
    partial: bool,
) -> Result<(CowStr<'j>, usize), ReadError>
    requires within { at < length bytes.now }
    requires stop { stop ≡ scan_stop bytes.now (at + 1) }
    requires escaped { IsLook bytes.now (at + 1) stop (Look.Escaped ascii) }
    ensures { UnlessRefused result (λ r. Scans (with_end text_view) r
        (string_at (text_form partial) bytes.now at)) }
{
    let (count, end) = decode(buffer, bytes, at, stop, ascii, partial)?;
    let own = copy_text(alloc, utf8_text(&buffer.as_slice()[..count]))?;
    Ok((CowStr::Owned(own), end))
}

/// Does what [`string_at`] does, after a look at the string: `found` is what [`look_at`] returned for `at + 1`.
///
/// # Requires
///
/// - `found` is what [`look_at`] returns for `at + 1`.
#[inline(always)]
pub fn string_from<'j>(
    alloc: Global,
    buffer: &mut Vec<u8>,
    bytes: &'j [u8],
    at: usize,
    found: (usize, Look),
    partial: bool,
) -> Result<(CowStr<'j>, usize), ReadError>
    requires within { at < length bytes.now }
    requires stop { found.0 ≡ scan_stop bytes.now (at + 1) }
    requires found { IsLook bytes.now (at + 1) found.0 found.1 }
    ensures value { UnlessRefused result (λ r. Scans (with_end text_view) r
        (string_at (text_form partial) bytes.now at)) }
    ensures advances { IfOk result (λ x. (at < x.1) × (x.1 ≤ length bytes.now)) }
    ensures memory { WhereRefused result (WantsMemory bytes.now at) }
{
    match found {
        (to, Look::Plain) => Ok((CowStr::Borrowed(utf8_text(&bytes[at + 1..to])), to + 1)),
        (to, Look::Utf8) => borrow_text(bytes, at + 1, to, to + 1, partial),
        (stop, Look::Escaped(ascii)) => decode_text(alloc, buffer, bytes, at, stop, ascii, partial),
        (to, Look::Fault(kind)) => {
            if partial && to == bytes.len() {
                return borrow_text(bytes, at + 1, to, to, partial);
            }
            Err(ReadError::Fault(fault_at(kind, to)))
        }
    }
}

/// Returns the string whose opening quote is at `at`, and the index after its closing quote (RFC 8259, 7 and 8.1). A
/// string without a backslash is borrowed from the input. Any other is decoded in the buffer and copied.
///
/// With `partial`, the input may end in the string: the index is then the length. An incomplete character is left out.
///
/// # Errors
///
/// - an error of the string, at the byte that is wrong, or at the length if the input ends first
/// - `InvalidUnicodeCodePoint` if the decoded bytes are not UTF-8; the index counts decoded bytes after the quote
/// - `Memory`, only for a string with a backslash
#[inline(always)]
pub fn string_at<'j>(
    alloc: Global,
    buffer: &mut Vec<u8>,
    bytes: &'j [u8],
    at: usize,
    partial: bool,
) -> Result<(CowStr<'j>, usize), ReadError>
    requires { at < length bytes.now }
    ensures value { UnlessRefused result (λ r. Scans (with_end text_view) r
        (string_at (text_form partial) bytes.now at)) }
    ensures advances { IfOk result (λ x. (at < x.1) × (x.1 ≤ length bytes.now)) }
    ensures memory { WhereRefused result (WantsMemory bytes.now at) }
{
    string_from(alloc, buffer, bytes, at, look_at(bytes, at + 1), partial)
}
