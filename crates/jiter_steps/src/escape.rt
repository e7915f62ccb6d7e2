//! Reads what ends a run of a string's plain bytes (RFC 8259, 7): an escape, or the end of the string.
ghost use Rattle.std.specs.Prelude.{◌≡◌, ◌≢◌, ◌+◌, ◌<◌, ◌≤◌, length, true, false, slice_get, IfSome, Some};
ghost use Rattle.std.specs.Prelude.{None, encode_utf8};
ghost use Rattle.jiter_steps.specs.Words.{digit_value, is_stop, short_escape, is_hex, is_high, is_low};
ghost use Rattle.jiter_steps.specs.Words.{number, part, hex_digits_at, event_at, unit_then, after_backslash};
ghost use Rattle.jiter_steps.specs.Words.{unicode_escape, after_high, after_high_backslash, surrogate_pair};
ghost use Rattle.jiter_steps.specs.Words.{digits_view, IfNumber, event_view};
ghost use Rattle.jiter_steps.specs.declared.escape.StringEvent.TheVariants as at_stop;
ghost use Rattle.jiter_steps.specs.declared.escape.StringEnd.TheVariants as ending;

use jiter_scan::errors::{Fault, FaultKind, fault_at};
use jiter_scan::word::byte_at;

// Four hex digits: their number, or the index of the first wrong byte.
#[derive(Clone, Copy, Debug)]
enum Hex {
    Bad(usize),
    Number(u32),
}

// How a string ends: after its quote, at the end of the input (`Cut` if inside an escape), or with an error.
#[derive(Clone, Copy, Debug)]
pub(crate) enum StringEnd {
    Closed(usize),
    Unclosed,
    Cut,
    Wrong(Fault),
}

// What ends a run of plain bytes: an escape, with its character and the index after it, or the end of the string.
#[derive(Clone, Copy, Debug)]
pub(crate) enum StringEvent {
    Escape(char, usize),
    End(StringEnd),
}

// For each byte, the number that it means as a hex digit, or 64. So no four bytes of which one is wrong add up to less.
static HEX_DIGITS: [u8; 256] =
    *b"@@@@@@@@@@@@@@@@@@@@@@@@@@@@@@@@@@@@@@@@@@@@@@@@\0\x01\x02\x03\x04\x05\x06\x07\x08\t@@@@@@@\n\x0b\x0c\r\x0e\
    \x0f@@@@@@@@@@@@@@@@@@@@@@@@@@\n\x0b\x0c\r\x0e\x0f@@@@@@@@@@@@@@@@@@@@@@@@@@@@@@@@@@@@@@@@@@@@@@@@@@@@@@@@@@\
    @@@@@@@@@@@@@@@@@@@@@@@@@@@@@@@@@@@@@@@@@@@@@@@@@@@@@@@@@@@@@@@@@@@@@@@@@@@@@@@@@@@@@@@@@@@@@@@";

#[inline(always)]
fn digit(byte: u8) -> u32
    ensures value { result < 64 → (result ≡ digit_value byte) × (result < 16) × (is_hex byte ≡ true) }
    ensures none { 64 ≤ result → is_hex byte ≡ false }
    ensures most { result ≤ 64 }
{
    HEX_DIGITS[byte as usize] as u32
}

// For each byte, the character that it means after a backslash (RFC 8259, 7), or 0 for `u` and for wrong escapes.
static SIMPLE_ESCAPES: [u8; 256] =
    *b"\0\0\0\0\0\0\0\0\0\0\0\0\0\0\0\0\0\0\0\0\0\0\0\0\0\0\0\0\0\0\0\0\0\0\"\0\0\0\0\0\0\0\0\0\0\0\0/\0\0\0\0\0\0\
    \0\0\0\0\0\0\0\0\0\0\0\0\0\0\0\0\0\0\0\0\0\0\0\0\0\0\0\0\0\0\0\0\0\0\0\0\0\0\\\0\0\0\0\0\x08\0\0\0\x0c\0\0\0\
    \0\0\0\0\n\0\0\0\r\0\t\0\0\0\0\0\0\0\0\0\0\0\0\0\0\0\0\0\0\0\0\0\0\0\0\0\0\0\0\0\0\0\0\0\0\0\0\0\0\0\0\0\0\0\
    \0\0\0\0\0\0\0\0\0\0\0\0\0\0\0\0\0\0\0\0\0\0\0\0\0\0\0\0\0\0\0\0\0\0\0\0\0\0\0\0\0\0\0\0\0\0\0\0\0\0\0\0\0\0\
    \0\0\0\0\0\0\0\0\0\0\0\0\0\0\0\0\0\0\0\0\0\0\0\0\0\0\0\0\0\0\0\0\0\0\0\0\0\0\0\0\0\0";

#[inline(always)]
fn simple_escape_of(letter: u8) -> u8
    ensures some { result ≢ 0 → short_escape letter ≡ Some result }
    ensures none { result ≡ 0 → short_escape letter ≡ None }
    ensures ascii { result < 128 }
{
    SIMPLE_ESCAPES[letter as usize]
}

fn is_high(unit: u32) -> bool
    ensures value { result ≡ is_high unit }
{
    0xd800 <= unit && unit < 0xdc00
}

fn is_low(unit: u32) -> bool
    ensures value { result ≡ is_low unit }
{
    0xdc00 <= unit && unit < 0xe000
}

#[inline(always)]
fn hex_at(bytes: &[u8], at: usize) -> Hex
    requires { at + 4 ≤ length bytes.now }
    ensures value { digits_view result ≡ hex_digits_at bytes.now at }
    ensures within { IfNumber result (λ u. u < 65536) }
{
    let a = digit(bytes[at]);
    let b = digit(bytes[at + 1]);
    let c = digit(bytes[at + 2]);
    let d = digit(bytes[at + 3]);
    if a + b + c + d < 64 {
        return Hex::Number(a * 4096 + b * 256 + c * 16 + d);
    }
    if a == 64 {
        return Hex::Bad(at);
    }
    if b == 64 {
        return Hex::Bad(at + 1);
    }
    Hex::Bad(if c == 64 { at + 2 } else { at + 3 })
}

fn wrong(kind: FaultKind, index: usize) -> StringEvent
    ensures { result ≡ at_stop.End (ending.Wrong (record { kind = kind; index = index })) }
{
    StringEvent::End(StringEnd::Wrong(Fault { kind, index }))
}

// `high` was read; the digits of the second escape begin at `at`.
fn low_surrogate(bytes: &[u8], high: u32, at: usize) -> StringEvent
    requires high { is_high high ≡ true }
    requires within { at ≤ length bytes.now }
    ensures value { event_view result ≡ unit_then bytes.now at (surrogate_pair high) }
{
    if bytes.len() - at < 4 {
        return StringEvent::End(StringEnd::Cut);
    }
    match hex_at(bytes, at) {
        Hex::Bad(index) => wrong(FaultKind::InvalidEscape, index),
        Hex::Number(low) => {
            if !is_low(low) {
                return wrong(FaultKind::LoneLeadingSurrogateInHexEscape, at + 3);
            }
            match char::from_u32(0x10000 + (high - 0xd800) * 0x400 + (low - 0xdc00)) {
                Some(c) => StringEvent::Escape(c, at + 4),
                None => unreachable!(),
            }
        }
    }
}

fn after_high(bytes: &[u8], high: u32, at: usize) -> StringEvent
    requires high { is_high high ≡ true }
    ensures value { event_view result ≡ after_high bytes.now high at (slice_get bytes.now at) }
{
    match byte_at(bytes, at) {
        None => StringEvent::End(StringEnd::Cut),
        Some(b'\\') => match byte_at(bytes, at + 1) {
            None => StringEvent::End(StringEnd::Cut),
            Some(b'u') => low_surrogate(bytes, high, at + 1 + 1),
            Some(_) => wrong(FaultKind::UnexpectedEndOfHexEscape, at + 1),
        },
        Some(_) => wrong(FaultKind::UnexpectedEndOfHexEscape, at),
    }
}

// The backslash and the `u` are before `at`.
fn unicode_escape(bytes: &[u8], at: usize) -> StringEvent
    requires within { at ≤ length bytes.now }
    ensures value { event_view result ≡ unit_then bytes.now at (unicode_escape bytes.now) }
{
    if bytes.len() - at < 4 {
        return StringEvent::End(StringEnd::Cut);
    }
    match hex_at(bytes, at) {
        Hex::Bad(index) => wrong(FaultKind::InvalidEscape, index),
        Hex::Number(unit) => {
            if is_high(unit) {
                return after_high(bytes, unit, at + 4);
            }
            if is_low(unit) {
                return wrong(FaultKind::LoneLeadingSurrogateInHexEscape, at + 3);
            }
            match char::from_u32(unit) {
                Some(c) => StringEvent::Escape(c, at + 4),
                None => unreachable!(),
            }
        }
    }
}

fn after_backslash(bytes: &[u8], at: usize) -> StringEvent
    ensures value { event_view result ≡ after_backslash bytes.now at (slice_get bytes.now at) }
{
    match byte_at(bytes, at) {
        None => StringEvent::End(StringEnd::Cut),
        Some(b'u') => unicode_escape(bytes, at + 1),
        Some(letter) => match simple_escape_of(letter) {
            0 => wrong(FaultKind::InvalidEscape, at),
            sign => StringEvent::Escape(sign as char, at + 1),
        },
    }
}

// The general case. Errors are found here.
#[tactic(auto, unfolding(crate::specs::StringReading::event_at))]
pub(crate) fn event_at(bytes: &[u8], at: usize) -> StringEvent
    requires { IfSome (slice_get bytes.now at) (λ b. is_stop b ≡ true) }
    ensures { event_view result ≡ event_at bytes.now at }
{
    match byte_at(bytes, at) {
        None => StringEvent::End(StringEnd::Unclosed),
        Some(b'"') => StringEvent::End(StringEnd::Closed(at + 1)),
        Some(b'\\') => after_backslash(bytes, at + 1),
        Some(_) => wrong(FaultKind::ControlCharacterWhileParsingString, at),
    }
}

// The fast path, with at least six bytes left. Returns the sign that a short escape means, or 0. Or it returns the character
// of `\u` with four digits that are no surrogate.
#[inline(always)]
#[tactic(auto, unfolding(crate::specs::StringReading::event_at))]
pub(crate) fn fast_escape_at(bytes: &[u8], at: usize) -> (u8, Option<char>)
    requires { at ≤ length bytes.now }
    ensures sign { result.0 ≢ 0 → part (encode_utf8 result.0) true (at + 2) ≡ event_at bytes.now at }
    ensures ascii { result.0 < 128 }
    ensures unit { IfSome result.1 (λ c. part (encode_utf8 c) true (at + 6) ≡ event_at bytes.now at) }
{
    if bytes.len() - at < 6 || bytes[at] != b'\\' {
        return (0, None);
    }
    let letter = bytes[at + 1];
    let sign = simple_escape_of(letter);
    if sign != 0 {
        return (sign, None);
    }
    if letter != b'u' {
        return (0, None);
    }
    match hex_at(bytes, at + 2) {
        Hex::Number(unit) => (0, char::from_u32(unit)),
        _ => (0, None),
    }
}

#[inline(always)]
#[tactic(auto, unfolding(crate::specs::StringReading::event_at))]
pub(crate) fn next_event(bytes: &[u8], at: usize) -> StringEvent
    requires within { at ≤ length bytes.now }
    requires stop { IfSome (slice_get bytes.now at) (λ b. is_stop b ≡ true) }
    ensures { event_view result ≡ event_at bytes.now at }
{
    match fast_escape_at(bytes, at) {
        (0, None) if at < bytes.len() && bytes[at] == b'"' => {
            StringEvent::End(StringEnd::Closed(at + 1))
        }
        (0, None) => event_at(bytes, at),
        (0, Some(c)) => StringEvent::Escape(c, at + 6),
        (sign, _) => StringEvent::Escape(sign as char, at + 2),
    }
}
