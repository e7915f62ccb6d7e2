//! The reader's calls for scalars: literals, numbers and strings.
ghost use Rattle.std.specs.Prelude.{◌≡◌, MatchOption, false, length, true};
ghost use Rattle.std.specs.Float.{binary64, float_is_finite};
ghost use Rattle.fast_float.specs.Parse.{parse_float};
ghost use Rattle.jiter.specs.Jiter.{reply_seen};
ghost use Rattle.jiter.specs.Reader.{bool_read, null_read, number_bytes_read, number_read, value_place};
ghost use Rattle.jiter.specs.Reads.{string_memory};
ghost use Rattle.jiter_scan.specs.NumberDecoder.{int_view, number_view};
ghost use Rattle.jiter_c.specs.Replies.{bytes_reply, int_reply, is_small, next_reply, small_value, state_of, str_reply};
ghost use Rattle.jiter_c.specs.Numbers.{IfGiven, IsNumber, IsUnsigned, ReportsUnsigned};
ghost use Rattle.jiter_c.specs.Reports.{Reports, RunsOutAt, UnlessMemory, WhereMemory, given_or, written};

use crate::faults::{JiterFault, fault_of};
use crate::reader::{JiterReader, answer, jiter_at};
use crate::texts::{JiterText, write_prefix};
use jiter::{NumberAny, NumberInt};
use std::alloc::Global;

/// Reads `null`.
///
/// # Errors
///
/// Returns `false` and writes to `fault`:
///
/// - the error that [`jiter::Jiter::next_null`] returns; the reader is then at the value's first byte, or the end
#[unsafe(no_mangle)]
pub extern "C" fn jiter_next_null(reader: &mut JiterReader<'_>, fault: &mut JiterFault) -> bool
    ensures reports { Reports (next_reply reader.old null_read) result reader.old reader.new fault.old fault.new }
    ensures stays { result ≡ false → reader.new.index ≡ value_place (state_of reader.old) }
{
    let mut jiter = jiter_at(reader);
    let read = jiter.next_null();
    answer(reader, &jiter, read, fault).is_some()
}

/// Reads `true` or `false` and writes it to `value`.
///
/// # Errors
///
/// Returns `false` and writes to `fault`:
///
/// - the error that [`jiter::Jiter::next_bool`] returns; the reader is then at the value's first byte, or the end
#[unsafe(no_mangle)]
pub extern "C" fn jiter_next_bool(
    reader: &mut JiterReader<'_>,
    value: &mut bool,
    fault: &mut JiterFault,
) -> bool
    ensures reports { Reports (next_reply reader.old bool_read) result reader.old reader.new fault.old fault.new }
    ensures value { value.new ≡ given_or value.old (next_reply reader.old bool_read) }
    ensures stays { result ≡ false → reader.new.index ≡ value_place (state_of reader.old) }
{
    let mut jiter = jiter_at(reader);
    let read = jiter.next_bool();
    let Some(truth) = answer(reader, &jiter, read, fault) else {
        return false;
    };
    *value = truth;
    true
}

/// Reads an integer and writes it to `value`.
///
/// `fits` is whether it fits in 64 signed bits; otherwise `value` is 0. To get the digits of an integer that doesn't
/// fit, call [`jiter_next_number`] on a copy of the reader from before this call.
///
/// # Errors
///
/// Returns `false` and writes to `fault`:
///
/// - the error that [`jiter::Jiter::next_int`] returns; the reader is then at the value's first byte, or the end
#[unsafe(no_mangle)]
pub extern "C" fn jiter_next_int(
    reader: &mut JiterReader<'_>,
    fits: &mut bool,
    value: &mut i64,
    fault: &mut JiterFault,
) -> bool
    ensures reports { Reports (int_reply reader.old) result reader.old reader.new fault.old fault.new }
    ensures fits { fits.new ≡ given_or fits.old (reply_seen is_small (int_reply reader.old)) }
    ensures value { value.new ≡ given_or value.old (reply_seen small_value (int_reply reader.old)) }
    ensures stays { result ≡ false → reader.new.index ≡ value_place (state_of reader.old) }
{
    let mut jiter = jiter_at(reader);
    let read = jiter.next_int();
    match answer(reader, &jiter, read, fault) {
        Some(NumberInt::Int(number)) => {
            *fits = true;
            *value = number;
            true
        }
        Some(NumberInt::BigInt(_)) => {
            *fits = false;
            *value = 0;
            true
        }
        None => false,
    }
}

/// Reads a number and sets `text` to its source bytes.
///
/// # Errors
///
/// Returns `false` and writes to `fault`:
///
/// - the error that [`jiter::Jiter::next_number_bytes`] returns; the reader is then at the value's first byte, or the
///   end
#[unsafe(no_mangle)]
pub extern "C" fn jiter_next_number<'j>(
    reader: &mut JiterReader<'j>,
    text: &mut JiterText<'j>,
    fault: &mut JiterFault,
) -> bool
    ensures reports { Reports (next_reply reader.old number_bytes_read) result reader.old reader.new
        fault.old fault.new }
    ensures text { text.new.bytes.now
        ≡ given_or text.old.bytes.now (next_reply reader.old number_bytes_read) }
    ensures stays { result ≡ false → reader.new.index ≡ value_place (state_of reader.old) }
{
    let mut jiter = jiter_at(reader);
    let read = jiter.next_number_bytes();
    let Some(bytes) = answer(reader, &jiter, read, fault) else {
        return false;
    };
    *text = JiterText { bytes };
    true
}

/// Reads an integer that has no sign and writes it to `value`.
///
/// `fits` is whether it is from 0 to 2^64 - 1; otherwise `value` is 0.
///
/// # Errors
///
/// Returns `false` and writes to `fault`:
///
/// - the error that [`jiter::Jiter::next_int`] returns; the reader is then at the value's first byte, or the end
#[tactic(auto, using(crate::proofs::Numbers::unsigned_told, crate::proofs::Numbers::unsigned_refused))]
#[unsafe(no_mangle)]
pub extern "C" fn jiter_next_u64(
    reader: &mut JiterReader<'_>,
    fits: &mut bool,
    value: &mut u64,
    fault: &mut JiterFault,
) -> bool
    ensures reports { Reports (int_reply reader.old) result reader.old reader.new fault.old fault.new }
    ensures value { ReportsUnsigned (int_reply reader.old) fits.old fits.new value.old value.new }
    ensures stays { result ≡ false → reader.new.index ≡ value_place (state_of reader.old) }
{
    let mut jiter = jiter_at(reader);
    let read = jiter.next_int();
    let Some(number) = answer(reader, &jiter, read, fault) else {
        return false;
    };
    let unsigned = unsigned_of(&number);
    *fits = unsigned.is_some();
    *value = unsigned.unwrap_or(0);
    true
}

fn unsigned_of(number: &NumberInt<'_>) -> Option<u64>
    ensures { IsUnsigned (int_view number.now) result }
{
    match number {
        NumberInt::Int(number) => {
            if *number < 0 {
                None
            } else {
                Some(*number as u64)
            }
        }
        NumberInt::BigInt(text) => text.parse::<u64>().ok(),
    }
}

/// Reads a number and writes the nearest double to `value`.
///
/// `finite` is whether that is a finite number. It is not for a number whose magnitude is too large, and for `NaN`,
/// `Infinity` and `-Infinity`.
///
/// # Errors
///
/// Returns `false` and writes to `fault`:
///
/// - the error that [`jiter::Jiter::next_number_bytes`] returns; the reader is then at the value's first byte, or the
///   end
#[tactic(auto, using(crate::proofs::Numbers::if_given, crate::proofs::Numbers::if_refused))]
#[unsafe(no_mangle)]
pub extern "C" fn jiter_next_double(
    reader: &mut JiterReader<'_>,
    value: &mut f64,
    finite: &mut bool,
    fault: &mut JiterFault,
) -> bool
    ensures reports { Reports (next_reply reader.old number_bytes_read) result reader.old reader.new
        fault.old fault.new }
    ensures value { IfGiven (next_reply reader.old number_bytes_read)
        (λ text. MatchOption (parse_float binary64 text)
        ((value.new ≡ value.old) × (finite.new ≡ false))
        (λ x. (value.new ≡ x) × (finite.new ≡ float_is_finite x))) }
    ensures kept { result ≡ false → (value.new ≡ value.old) × (finite.new ≡ finite.old) }
    ensures stays { result ≡ false → reader.new.index ≡ value_place (state_of reader.old) }
{
    let mut jiter = jiter_at(reader);
    let number = jiter.next_number_bytes();
    let Some(bytes) = answer(reader, &jiter, number, fault) else {
        return false;
    };
    match double_of(bytes) {
        Some(double) => {
            *value = double;
            *finite = double.is_finite();
        }
        None => *finite = false,
    }
    true
}

/// Returns the double nearest to a number's text.
pub fn double_of(bytes: &[u8]) -> Option<f64>
    ensures { result ≡ parse_float binary64 bytes.now }
{
    fast_float::parse::<f64, &[u8]>(bytes).ok()
}

/// Writes the nearest double of a number's text to `value`, as [`jiter_next_double`] does.
///
/// # Errors
///
/// Returns `false` and writes nothing if the bytes are not a number. Any text that Rust's `parse::<f64>` takes is one.
#[unsafe(no_mangle)]
pub extern "C" fn jiter_double(bytes: &[u8], value: &mut f64, finite: &mut bool) -> bool
    ensures { MatchOption (parse_float binary64 bytes.now)
        ((result ≡ false) × (value.new ≡ value.old) × (finite.new ≡ finite.old))
        (λ x. (result ≡ true) × (value.new ≡ x) × (finite.new ≡ float_is_finite x)) }
{
    let Some(nearest) = double_of(bytes) else {
        return false;
    };
    *value = nearest;
    *finite = nearest.is_finite();
    true
}

/// A number, whichever it is.
#[repr(C)]
#[derive(Clone, Copy)]
pub struct JiterNumber<'j> {
    /// The type, by the numbers of `jiter_c.h`: an integer, a large integer or a float.
    pub kind: u32,
    /// The integer, if it fits in 64 signed bits; otherwise 0.
    pub integer: i64,
    /// The source text of a large integer or a float; otherwise empty.
    pub text: JiterText<'j>,
}

fn number_of<'j>(number: NumberAny<'j>) -> JiterNumber<'j>
    ensures { IsNumber (number_view number.entry) result.kind result.integer result.text.bytes.now }
{
    match number {
        NumberAny::Int(NumberInt::Int(integer)) => JiterNumber {
            kind: 3,
            integer,
            text: JiterText { bytes: b"" },
        },
        NumberAny::Int(NumberInt::BigInt(text)) => JiterNumber {
            kind: 9,
            integer: 0,
            text: JiterText {
                bytes: text.as_bytes(),
            },
        },
        NumberAny::Float(text) => JiterNumber {
            kind: 4,
            integer: 0,
            text: JiterText {
                bytes: text.as_bytes(),
            },
        },
    }
}

/// Reads a number, whichever it is, and writes it to `number`.
///
/// # Errors
///
/// Returns `false` and writes to `fault`:
///
/// - the error that [`jiter::Jiter::next_number`] returns; the reader is then at the value's first byte, or the end
#[tactic(auto, using(crate::proofs::Numbers::if_given, crate::proofs::Numbers::if_refused))]
#[unsafe(no_mangle)]
pub extern "C" fn jiter_next_any_number<'j>(
    reader: &mut JiterReader<'j>,
    number: &mut JiterNumber<'j>,
    fault: &mut JiterFault,
) -> bool
    ensures reports { Reports (next_reply reader.old number_read) result reader.old reader.new fault.old fault.new }
    ensures number { IfGiven (next_reply reader.old number_read)
        (λ n. IsNumber n number.new.kind number.new.integer number.new.text.bytes.now) }
    ensures kept { result ≡ false → number.new ≡ number.old }
    ensures stays { result ≡ false → reader.new.index ≡ value_place (state_of reader.old) }
{
    let mut jiter = jiter_at(reader);
    let read = jiter.next_number();
    let Some(found) = answer(reader, &jiter, read, fault) else {
        return false;
    };
    *number = number_of(found);
    true
}

/// Reads a string and sets `text` to the bytes between its quotes.
///
/// Escapes are checked and not decoded, and UTF-8 is not checked.
///
/// # Errors
///
/// Returns `false` and writes to `fault`:
///
/// - the error that [`jiter::Jiter::next_bytes`] returns; the reader is then at the value's first byte, or the end
#[unsafe(no_mangle)]
pub extern "C" fn jiter_next_bytes<'j>(
    reader: &mut JiterReader<'j>,
    text: &mut JiterText<'j>,
    fault: &mut JiterFault,
) -> bool
    ensures reports { Reports (bytes_reply reader.old) result reader.old reader.new fault.old fault.new }
    ensures text { text.new.bytes.now ≡ given_or text.old.bytes.now (bytes_reply reader.old) }
    ensures stays { result ≡ false → reader.new.index ≡ value_place (state_of reader.old) }
{
    let mut jiter = jiter_at(reader);
    let read = jiter.next_bytes();
    let Some(bytes) = answer(reader, &jiter, read, fault) else {
        return false;
    };
    *text = JiterText { bytes };
    true
}

/// Reads a string and writes it, decoded, to `out`.
///
/// `out` gets as much of the string as fits, `whole` its complete length.
///
/// # Errors
///
/// Returns `false` and writes to `fault`:
///
/// - the error that [`jiter::Jiter::next_str`] returns
/// - out of memory, only for a string with a backslash
///
/// The reader is then at the value's first byte, or at the end, so the value can be read again.
#[unsafe(no_mangle)]
pub extern "C" fn jiter_next_str(
    alloc: Global,
    reader: &mut JiterReader<'_>,
    out: &mut [u8],
    whole: &mut usize,
    fault: &mut JiterFault,
) -> bool
    ensures reports { UnlessMemory result fault.new
        (Reports (str_reply reader.old) result reader.old reader.new fault.old fault.new) }
    ensures text { UnlessMemory result fault.new (out.new
        ≡ given_or out.old (reply_seen (λ text. written text out.old) (str_reply reader.old))) }
    ensures whole { UnlessMemory result fault.new
        (whole.new ≡ given_or whole.old (reply_seen length (str_reply reader.old))) }
    ensures memory { WhereMemory result fault.new (RunsOutAt
        (string_memory reader.old.bytes.now (value_place (state_of reader.old))) reader.old reader.new fault.new) }
    ensures kept { result ≡ false → (out.new ≡ out.old) × (whole.new ≡ whole.old) }
    ensures stays { UnlessMemory result fault.new
        (result ≡ false → reader.new.index ≡ value_place (state_of reader.old)) }
{
    let mut jiter = jiter_at(reader);
    let given = match jiter.next_str(alloc) {
        Ok(text) => {
            *whole = write_prefix(out, text.as_bytes());
            true
        }
        Err(error) => {
            *fault = fault_of(&error);
            false
        }
    };
    reader.index = jiter.current_index();
    given
}
