//! Strings and bytes that C gets: copied to its memory, or borrowed from its bytes.
ghost use Rattle.std.specs.Prelude.{◌≡◌, ◌+◌, ◌^◌, ◌<◌, ◌≤◌, decimal, length};
ghost use Rattle.jiter_c.specs.Reports.{Appends, written};

use itoa::Buffer;

/// Bytes borrowed from the bytes that the caller passed.
#[repr(C)]
#[derive(Clone, Copy)]
pub struct JiterText<'j> {
    /// The bytes: in C a pointer and a length.
    pub bytes: &'j [u8],
}

// The complete length shows the caller whether `out` was too short.
#[inline(never)]
pub fn write_prefix(out: &mut [u8], text: &[u8]) -> usize
    ensures text { out.new ≡ written text.now out.old }
    ensures whole { result ≡ length text.now }
{
    let count = text.len().min(out.len());
    out[..count].copy_from_slice(&text[..count]);
    text.len()
}

/// Writes a text after the first `count` bytes of a longer one, as much of it as fits, and returns the new count.
///
/// # Requires
///
/// - the new count fits in 64 bits
pub fn append(out: &mut [u8], count: usize, text: &[u8]) -> usize
    requires { count + length text.now < 2 ^ 64 }
    ensures text { Appends count text.now out.old out.new }
    ensures count { result ≡ count + length text.now }
{
    if count < out.len() {
        write_prefix(&mut out[count..], text);
        return count + text.len();
    }
    count + text.len()
}

/// Appends a number in decimal digits.
///
/// # Requires
///
/// - `count` is less than 2 to the power 32
pub fn append_number(out: &mut [u8], count: usize, number: usize) -> usize
    requires { count < 2 ^ 32 }
    ensures text { Appends count (decimal number) out.old out.new }
    ensures count { result ≡ count + length (decimal number) }
    ensures short { result ≤ count + 40 }
{
    append(out, count, Buffer::new().format(number).as_bytes())
}
