//! What is a JSON Pointer (RFC 6901, 3).
ghost use Rattle.std.specs.Prelude.{◌≡◌};
ghost use Rattle.format.specs.Pointers.{has_escapes, is_escape, is_pointer};

fn is_escape(after: &[u8]) -> bool
    ensures { result ≡ is_escape after.now }
{
    match after {
        [b'0' | b'1', ..] => true,
        _ => false,
    }
}

// Whether `0` or `1` follows each tilde.
fn has_escapes(bytes: &[u8]) -> bool
    ensures { result ≡ has_escapes bytes.now }
{
    for i in 0..bytes.len() {
        if bytes[i] == b'~' && !is_escape(&bytes[i + 1..]) {
            return false;
        }
    }
    true
}

/// Returns whether a text is a JSON Pointer: it is empty or begins with a slash, and `0` or `1` follows each tilde.
pub fn is_pointer(text: &str) -> bool
    ensures { result ≡ is_pointer text.now }
{
    match text.as_bytes() {
        [] => true,
        [first, steps @ ..] => *first == b'/' && has_escapes(steps),
    }
}
