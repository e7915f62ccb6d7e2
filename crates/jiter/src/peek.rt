//! The first byte of a value.
ghost use Rattle.std.specs.Prelude.{◌≡◌};
ghost use Rattle.jiter_scan.specs.NumberReading.{begins_number};

use std::fmt;

/// The next byte, which shows the type of the value that it begins. [`crate::Jiter::peek`] may return any byte.
#[derive(Clone, Copy, PartialEq, Eq)]
pub struct Peek(u8);

impl Peek {
    /// `n`, the first byte of `null`
    pub const Null: Peek = Peek(b'n');
    /// `t`, the first byte of `true`
    pub const True: Peek = Peek(b't');
    /// `f`, the first byte of `false`
    pub const False: Peek = Peek(b'f');
    /// `-`, the first byte of a negative number
    pub const Minus: Peek = Peek(b'-');
    /// `I`, the first byte of `Infinity`
    pub const Infinity: Peek = Peek(b'I');
    /// `N`, the first byte of `NaN`
    pub const NaN: Peek = Peek(b'N');
    /// `"`, the first byte of a string
    pub const String: Peek = Peek(b'"');
    /// `[`, the first byte of an array
    pub const Array: Peek = Peek(b'[');
    /// `{`, the first byte of an object
    pub const Object: Peek = Peek(b'{');

    /// Returns the peek of this byte.
    pub fn new(next: u8) -> Peek
        ensures { result.0 ≡ next }
    {
        Peek(next)
    }

    /// Returns the byte.
    pub fn into_inner(self) -> u8
        ensures { result ≡ self.0 }
    {
        let Peek(byte) = self;
        byte
    }

    /// Returns whether a number begins with the byte (RFC 8259, 6): a digit, `-`, `N` or `I`, with every setting.
    pub fn is_num(self) -> bool
        ensures { result ≡ begins_number self.0 }
    {
        self.0.is_ascii_digit() || matches!(self.0, b'-' | b'N' | b'I')
    }
}

impl fmt::Debug for Peek {
    fn fmt<W: fmt::Write>(&self, f: &mut fmt::Formatter<W>) -> fmt::Result {
        match self.0 {
            b'n' => f.write_str("Null"),
            b't' => f.write_str("True"),
            b'f' => f.write_str("False"),
            b'-' => f.write_str("Minus"),
            b'I' => f.write_str("Infinity"),
            b'N' => f.write_str("NaN"),
            b'"' => f.write_str("String"),
            b'[' => f.write_str("Array"),
            b'{' => f.write_str("Object"),
            byte => write!(f, "Peek({:?})", byte as char),
        }
    }
}
