//! Strings as they are in the source (RFC 8259, 7), and where they end. Escapes are checked but not decoded, and UTF-8
//! is not tested. Nothing here allocates.
ghost use Rattle.std.specs.Prelude.{◌≡◌, ◌≢◌, ◌+◌, ◌<◌, ◌≤◌, ℕ, length, slice_get, IfOk, IfSome, OnOk, OnErr};
ghost use Rattle.std.specs.Prelude.{Some, true, Bool, IsTrue, List, None};
ghost use Rattle.jiter_steps.specs.Words.{fault_kind, is_stop, scan_stop, Scans, taken, failed, with_end};
ghost use Rattle.jiter_steps.specs.Words.{seen_as, EndsAt, raw_view, scalar_at, content_at, string_at, raw};
ghost use Rattle.jiter_steps.specs.Words.{raw_form, Stop, part, over, event_at};
ghost use Rattle.jiter_scan.specs.Ascii as ascii;

use crate::escape::{StringEnd, StringEvent, event_at, next_event};
use crate::parse::Parser;
use crate::string_decoder::cut_short;
use jiter_scan::bytes::simd::string_stop;
use jiter_scan::errors::Fault;
use jiter_scan::word::byte_at;

// For a string with a backslash at `from`.
#[inline(never)]
fn escaped_end(bytes: &[u8], from: usize) -> usize
    requires within { from ≤ length bytes.now }
    requires stop { IfSome (slice_get bytes.now from) (λ b. is_stop b ≡ true) }
    ensures over { EndsAt bytes.now from result }
    ensures place { (from ≤ result) × (result ≤ length bytes.now) }
    ensures stop { IfSome (slice_get bytes.now result) (λ b. is_stop b ≡ true) }
{
    let mut at = from;
    loop {
        match next_event(bytes, at) {
            StringEvent::Escape(_, end) => at = string_stop(bytes, end),
            StringEvent::End(_) => return at,
        }
    }
}

// Returns the index of the closing quote, of the control byte or escape that is wrong, or the length.
#[inline(always)]
fn content_end(bytes: &[u8], from: usize) -> usize
    requires { from ≤ length bytes.now }
    ensures over { EndsAt bytes.now from result }
    ensures place { (from ≤ result) × (result ≤ length bytes.now) }
    ensures stop { IfSome (slice_get bytes.now result) (λ b. is_stop b ≡ true) }
{
    let to = string_stop(bytes, from);
    match byte_at(bytes, to) {
        None => to,
        Some(b'\\') => escaped_end(bytes, to),
        Some(_) => to,
    }
}

// The same, for the rest of a string that was read up to `from`.
#[inline(always)]
fn rest_end(bytes: &[u8], from: usize) -> usize
    requires { from < length bytes.now }
    ensures over { EndsAt bytes.now from result }
    ensures place { (from ≤ result) × (result ≤ length bytes.now) }
{
    if bytes[from] == b'\\' {
        escaped_end(bytes, from)
    } else {
        content_end(bytes, from)
    }
}

#[cold]
fn fault_of(bytes: &[u8], at: usize) -> Fault
    requires stop { IfSome (slice_get bytes.now at) (λ b. is_stop b ≡ true) }
    requires over { (i : ℕ) × EndsAt bytes.now i at }
    requires no_quote { slice_get bytes.now at ≢ Some ascii.quote }
    ensures { (i : ℕ) → (partial : Bool) → EndsAt bytes.now i at
        → (IsTrue partial → at < length bytes.now)
        → content_at (raw_form partial) bytes.now i ≡ failed (fault_kind result.kind) result.index }
{
    match event_at(bytes, at) {
        StringEvent::End(StringEnd::Wrong(fault)) => fault,
        StringEvent::End(StringEnd::Unclosed) => cut_short(bytes),
        StringEvent::End(StringEnd::Cut) => cut_short(bytes),
        StringEvent::End(StringEnd::Closed(_)) => unreachable!(),
        StringEvent::Escape(_, _) => unreachable!(),
    }
}

// The bytes before `from` are plain, and are not read again.
#[inline(never)]
pub(crate) fn closed_end(bytes: &[u8], at: usize, from: usize) -> Option<usize>
    requires within { (at + 1 ≤ from) × (from < length bytes.now) }
    requires plain { scan_stop bytes.now (at + 1) ≡ scan_stop bytes.now from }
    ensures value { IfSome result (λ e. seen_as (λ s k. tt {0}) (string_at raw bytes.now at) ≡ taken tt e) }
    ensures within { IfSome result (λ e. (at < e) × (e ≤ length bytes.now)) }
{
    let end = rest_end(bytes, from);
    match byte_at(bytes, end) {
        Some(b'"') => Some(end + 1),
        _ => None,
    }
}

/// Returns the index after the closing quote of the string at `at` (RFC 8259, 7). Fails as
/// [`string_at`](crate::string_decoder::string_at) does, except that UTF-8 is not tested.
#[inline(always)]
pub fn string_end(bytes: &[u8], at: usize) -> Result<usize, Fault>
    requires { at < length bytes.now }
    ensures value { Scans (taken tt) result (seen_as (λ s e. tt {0}) (string_at raw bytes.now at)) }
    ensures advances { IfOk result (λ e. (at + 1 < e) × (e ≤ length bytes.now)) }
{
    let end = content_end(bytes, at + 1);
    match byte_at(bytes, end) {
        Some(b'"') => Ok(end + 1),
        _ => Err(fault_of(bytes, end)),
    }
}

/// Returns the bytes between the quotes of the string at `at`, and the index after its closing quote (RFC 8259, 7).
/// Escapes are checked but not decoded, and UTF-8 is not tested.
///
/// With `partial`, the input may end in the string, except in an escape: the bytes and the index then go up to the length.
/// Otherwise fails as [`string_end`] does.
#[inline(always)]
pub fn raw_string_at<'j>(
    bytes: &'j [u8],
    at: usize,
    partial: bool,
) -> Result<(&'j [u8], usize), Fault>
    requires { at < length bytes.now }
    ensures value { Scans (with_end raw_view) result (string_at (raw_form partial) bytes.now at) }
    ensures advances { IfOk result (λ x. (at < x.1) × (x.1 ≤ length bytes.now)) }
{
    let end = content_end(bytes, at + 1);
    match byte_at(bytes, end) {
        Some(b'"') => Ok((&bytes[at + 1..end], end + 1)),
        Some(_) => Err(fault_of(bytes, end)),
        None if partial => Ok((&bytes[at + 1..], bytes.len())),
        None => Err(fault_of(bytes, end)),
    }
}

impl<'j> Parser<'j> {
    ghost use Rattle.jiter_steps.specs.Parse.{NeverMovesBack, Reads};

    /// Reads the bytes between the quotes of the string at the reader's position (RFC 8259, 7), as [`raw_string_at`]
    /// does. After an error the reader is where it was.
    #[inline(always)]
    pub fn raw_string(&mut self, partial: bool) -> Result<&'j [u8], Fault>
        requires { self.old.index < length self.old.bytes.now }
        ensures moves { NeverMovesBack self.old self.new }
        ensures value { Reads raw_view result self.new.index (scalar_at self.old.index
            (string_at (raw_form partial) self.old.bytes.now self.old.index)) }
        ensures ahead { OnOk result (self.old.index < self.new.index) }
        ensures place { OnErr result (self.new.index ≡ self.old.index) }
    {
        let (content, end) = raw_string_at(self.bytes, self.index, partial)?;
        self.index = end;
        Ok(content)
    }
}
