//! Errors as C sees them, and lines and columns.
ghost use Rattle.std.specs.Prelude.{◌≡◌, count_by};
ghost use Rattle.jiter.specs.Errors.{cause_of, type_of};
ghost use Rattle.jiter_scan.specs.Kind.{kind_of};
ghost use Rattle.jiter_scan.specs.Position.{position_of};
ghost use Rattle.jiter_c.specs.Faults.{begins_character, character_column, fault_of, kind_number, misuse, position_view, type_number};

use jiter::{JiterError, JiterErrorType, JsonErrorType, JsonType, LinePosition};

/// The kind of an error if the next value has another type. Kinds 1 to 21 are errors of the bytes; 22 is out of memory.
pub const WRONG_TYPE: u32 = 100;

/// The kind of an error if the call itself is wrong: no mode has its number, or a handle holds something else.
pub const MISUSE: u32 = 101;

/// Why a call failed, by the numbers of `jiter_c.h`.
#[repr(C)]
#[derive(Clone, Copy)]
pub struct JiterFault {
    /// The kind of the error.
    pub kind: u32,
    /// The type that the call reads, if the kind is [`WRONG_TYPE`]; otherwise 0.
    pub expected: u32,
    /// The type of the next value, if the kind is [`WRONG_TYPE`]; otherwise 0.
    pub actual: u32,
    /// The byte index, from 0 and at most the length.
    pub index: usize,
}

/// A line and a column.
#[repr(C)]
#[derive(Clone, Copy)]
pub struct JiterPosition {
    /// The line, from 1.
    pub line: usize,
    /// The column in bytes, from 1; 0 at a line feed and in empty bytes.
    pub column: usize,
}

/// Returns the error of a call that is itself wrong.
pub fn misuse() -> JiterFault
    ensures { result ≡ misuse }
{
    JiterFault {
        kind: MISUSE,
        expected: 0,
        actual: 0,
        index: 0,
    }
}

pub fn kind_number(kind: &JsonErrorType) -> u32
    ensures { result ≡ kind_number (kind_of kind.now) }
{
    match kind {
        JsonErrorType::FloatExpectingInt => 1,
        JsonErrorType::EofWhileParsingList => 2,
        JsonErrorType::EofWhileParsingObject => 3,
        JsonErrorType::EofWhileParsingString => 4,
        JsonErrorType::EofWhileParsingValue => 5,
        JsonErrorType::ExpectedColon => 6,
        JsonErrorType::ExpectedListCommaOrEnd => 7,
        JsonErrorType::ExpectedObjectCommaOrEnd => 8,
        JsonErrorType::ExpectedSomeIdent => 9,
        JsonErrorType::ExpectedSomeValue => 10,
        JsonErrorType::InvalidEscape => 11,
        JsonErrorType::InvalidNumber => 12,
        JsonErrorType::NumberOutOfRange => 13,
        JsonErrorType::InvalidUnicodeCodePoint => 14,
        JsonErrorType::ControlCharacterWhileParsingString => 15,
        JsonErrorType::KeyMustBeAString => 16,
        JsonErrorType::LoneLeadingSurrogateInHexEscape => 17,
        JsonErrorType::TrailingComma => 18,
        JsonErrorType::TrailingCharacters => 19,
        JsonErrorType::UnexpectedEndOfHexEscape => 20,
        JsonErrorType::RecursionLimitExceeded => 21,
        JsonErrorType::OutOfMemory => 22,
    }
}

fn type_number(name: &JsonType) -> u32
    ensures { result ≡ type_number (type_of name.now) }
{
    match name {
        JsonType::Null => 1,
        JsonType::Bool => 2,
        JsonType::Int => 3,
        JsonType::Float => 4,
        JsonType::String => 5,
        JsonType::Array => 6,
        JsonType::Object => 7,
    }
}

pub fn fault_of(error: &JiterError) -> JiterFault
    ensures { result ≡ fault_of (cause_of error.now.error_type) error.now.index }
{
    match &error.error_type {
        JiterErrorType::JsonError(kind) => JiterFault {
            kind: kind_number(kind),
            expected: 0,
            actual: 0,
            index: error.index,
        },
        JiterErrorType::WrongType { expected, actual } => JiterFault {
            kind: WRONG_TYPE,
            expected: type_number(expected),
            actual: type_number(actual),
            index: error.index,
        },
    }
}

/// Writes the line and column of a byte index to `position`. An index past the bytes counts as their last byte.
#[unsafe(no_mangle)]
pub extern "C" fn jiter_position(bytes: &[u8], index: usize, position: &mut JiterPosition)
    ensures { position.new ≡ position_view (position_of bytes.now index) }
{
    let LinePosition { line, column } = LinePosition::find(bytes, index);
    *position = JiterPosition { line, column };
}

/// Returns the column of a byte index in characters, as an editor counts them: the characters from the start of its line
/// up to it, itself included.
///
/// A byte that continues a character of UTF-8 counts as no character of its own. An index past the bytes counts as their
/// last byte; the column of a line feed is 0.
#[unsafe(no_mangle)]
pub extern "C" fn jiter_character_column(bytes: &[u8], index: usize) -> usize
    ensures { result ≡ character_column bytes.now index }
{
    let through = if index < bytes.len() {
        &bytes[..=index]
    } else {
        bytes
    };
    let column = LinePosition::find(bytes, index).column;
    count_characters(&through[through.len().saturating_sub(column)..])
}

fn count_characters(bytes: &[u8]) -> usize
    ensures { result ≡ count_by begins_character bytes.now }
{
    let mut count = 0;
    for byte in bytes {
        if *byte < 0x80 || 0xC0 <= *byte {
            count += 1;
        }
    }
    count
}

const MINOR: u32 = 18;

/// Returns the version of the library: 10,000 times the major number, 100 times the minor one, and the patch.
#[unsafe(no_mangle)]
pub extern "C" fn jiter_version() -> u32
    ensures { result ≡ 1800 }
{
    100 * MINOR
}
