//! Strings made from bytes, without a test at run time.
ghost use Rattle.std.specs.Prelude.{◌≡◌};
ghost use Rattle.std.specs.Str.{IsAscii, IsUtf8};

/// Returns bytes that are UTF-8 as a string.
///
/// This is the only unchecked conversion: nothing is tested at run time. Each call proves that the bytes are UTF-8.
#[inline(always)]
pub fn utf8_text(bytes: &[u8]) -> &str
    requires { IsUtf8 bytes.now }
    ensures { result.now ≡ bytes.now }
{
    unsafe { std::str::from_utf8_unchecked(bytes) }
}

/// Returns bytes below 80 hex as a string. Nothing is tested at run time.
#[inline(always)]
pub fn ascii_text(bytes: &[u8]) -> &str
    requires { IsAscii bytes.now }
    ensures { result.now ≡ bytes.now }
{
    utf8_text(bytes)
}
