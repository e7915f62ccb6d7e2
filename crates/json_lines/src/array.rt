//! The text of an array, cut into its items.
ghost use Rattle.std.specs.Prelude.{◌≡◌, ◌+◌, ◌<◌, ◌≤◌, ◌^◌, ◌++◌, ◌∷◌, IfOk, IfSome, OnOk, Some, length, option_map, slice_index, take, true, vec_len};
ghost use Rattle.std.specs.Io.{StartsWith, appended_bytes};
ghost use Rattle.std.specs.Io.Buffered.{reader_remaining};
ghost use Rattle.std.specs.Io.KnownBytes.{Consumes};
ghost use Rattle.json_lines.specs.Items.{blanks, ends_item, is_white, place_after, trim_end};
ghost use Rattle.json_lines.specs.ItemsRead.{EndsSo, IsNextByte, Passes, TakesByte, TakesPiece, TakesVisible, begins_with_mark, depth_of, end_bytes, head_error, past, place_of};

use jiter_scan::LinePosition;
use std::io;
use std::io::{BufRead, BufReader, ErrorKind, Read};

// Where the scan of an item is: outside its strings, in one, or after a backslash in one. The number is that of the open
// brackets.
#[derive(Clone, Copy)]
enum State {
    Outside(usize),
    InString(usize),
    AfterBackslash(usize),
}

// What ends a piece of the array's text: a byte outside strings and brackets, or the end of the input.
#[derive(Clone, Copy)]
pub(crate) enum Ended {
    Comma,
    Bracket,
    Input,
}

impl State {
    fn ends_item(self, byte: u8) -> bool
        ensures { result ≡ ends_item (place_of self) byte }
    {
        match self {
            State::Outside(depth) => depth == 0 && (byte == b',' || byte == b']'),
            _ => false,
        }
    }

    // Returns the state after this byte.
    fn after(self, byte: u8) -> State
        requires { depth_of self + 1 < 2 ^ 64 }
        ensures place { place_of result ≡ place_after (place_of self) byte }
        ensures depth { depth_of result ≤ depth_of self + 1 }
    {
        match self {
            State::Outside(depth) => {
                if byte == b'"' {
                    State::InString(depth)
                } else if byte == b'[' || byte == b'{' {
                    State::Outside(depth + 1)
                } else if byte == b']' || byte == b'}' {
                    State::Outside(depth.saturating_sub(1))
                } else {
                    State::Outside(depth)
                }
            }
            State::InString(depth) => {
                if byte == b'"' {
                    State::Outside(depth)
                } else if byte == b'\\' {
                    State::AfterBackslash(depth)
                } else {
                    State::InString(depth)
                }
            }
            State::AfterBackslash(depth) => State::InString(depth),
        }
    }
}

// Returns how many of these bytes belong to the piece, and moves the state past them.
fn scan(state: &mut State, bytes: &[u8]) -> usize
    requires { depth_of state.old + length bytes.now < 2 ^ 64 }
    ensures within { result ≤ length bytes.now }
    ensures passes { Passes (place_of state.old) (take result bytes.now) (place_of state.new) }
    ensures depth { depth_of state.new ≤ depth_of state.old + result }
    ensures ends { result < length bytes.now → ends_item (place_of state.new) (slice_index bytes.now result) ≡ true }
{
    for (index, byte) in bytes.iter().enumerate() {
        if state.ends_item(*byte) {
            return index;
        }
        *state = state.after(*byte);
    }
    bytes.len()
}

// Appends the part of the piece that is in the reader's buffer, and reads the byte that ends it. Returns what ends it, or
// `None` if the piece goes on.
fn append_piece<R: Read>(
    reader: &mut BufReader<R>,
    state: &mut State,
    buffer: &mut Vec<u8>,
) -> io::Result<Option<Ended>>
    requires { depth_of state.old ≤ vec_len buffer.old }
    ensures depth { OnOk result (depth_of state.new ≤ vec_len buffer.new) }
    ensures grows { StartsWith buffer.new.items buffer.old.items }
    ensures passes { OnOk result (Passes (place_of state.old)
        (appended_bytes buffer.old.items buffer.new.items) (place_of state.new)) }
    ensures bytes { IfOk result (λ e. Consumes (reader_remaining R.remaining reader.old)
        (reader_remaining R.remaining reader.new)
        (appended_bytes buffer.old.items buffer.new.items ++ end_bytes e)) }
    ensures ends { IfOk result (λ e. IfSome (reader_remaining R.remaining reader.old)
        (λ _. EndsSo (place_of state.new) (reader_remaining R.remaining reader.new) e)) }
{
    let bytes = match reader.fill_buf() {
        Ok(bytes) => bytes,
        Err(error) if error.kind() == ErrorKind::Interrupted => return Ok(None),
        Err(error) => return Err(error),
    };
    if bytes.is_empty() {
        return Ok(Some(Ended::Input));
    }
    let count = scan(state, bytes);
    buffer.extend_from_slice(&bytes[..count])?;
    if count == bytes.len() {
        reader.consume(count);
        return Ok(None);
    }
    let is_comma = bytes[count] == b',';
    reader.consume(count + 1);
    Ok(Some(if is_comma {
        Ended::Comma
    } else {
        Ended::Bracket
    }))
}

// Reads the next piece of the array's text and the byte that ends it. The buffer then holds the piece alone.
pub(crate) fn read_piece<R: Read>(
    reader: &mut BufReader<R>,
    buffer: &mut Vec<u8>,
) -> io::Result<Ended>
    ensures { IfOk result (λ e. TakesPiece (reader_remaining R.remaining reader.old)
        (reader_remaining R.remaining reader.new) e buffer.new.items) }
{
    buffer.clear();
    let mut state = State::Outside(0);
    for _ in 0..u64::MAX {
        if let Some(ended) = append_piece(reader, &mut state, buffer)? {
            return Ok(ended);
        }
    }
    Err(io::Error::from(ErrorKind::Other))
}

// Reads a byte. Returns `None` at the end.
fn next_byte<R: Read>(reader: &mut BufReader<R>) -> io::Result<Option<u8>>
    ensures { IfOk result (λ b. TakesByte (reader_remaining R.remaining reader.old)
        (reader_remaining R.remaining reader.new) b) }
{
    let mut bytes = [0];
    for _ in 0..u64::MAX {
        match reader.read(&mut bytes) {
            Ok(0) => return Ok(None),
            Ok(_) => return Ok(Some(bytes[0])),
            Err(error) => {
                if error.kind() != ErrorKind::Interrupted {
                    return Err(error);
                }
            }
        }
    }
    Err(io::Error::from(ErrorKind::Other))
}

fn is_white(byte: u8) -> bool
    ensures { result ≡ is_white byte }
{
    byte == b' ' || byte == b'\t' || byte == b'\n' || byte == b'\r'
}

// Returns the position after these bytes.
pub(crate) fn past(position: &LinePosition, bytes: &[u8]) -> io::Result<LinePosition>
    ensures { IfOk result (λ p. p ≡ past position.now bytes.now) }
{
    let LinePosition { line, column } = position;
    let (mut line, mut column) = (*line, *column);
    if usize::MAX - line.max(column) < bytes.len() {
        return Err(io::Error::from(ErrorKind::Other));
    }
    for byte in bytes {
        if *byte == b'\n' {
            line += 1;
            column = 1;
        } else {
            column += 1;
        }
    }
    Ok(LinePosition { line, column })
}

// Reads whitespace and the byte after it, and moves the position to that byte. Returns `None` at the end.
pub(crate) fn next_visible<R: Read>(
    reader: &mut BufReader<R>,
    position: &mut LinePosition,
) -> io::Result<Option<u8>>
    ensures { IfOk result (λ b. TakesVisible (reader_remaining R.remaining reader.old)
        (reader_remaining R.remaining reader.new) position.old position.new b) }
{
    for _ in 0..u64::MAX {
        let Some(byte) = next_byte(reader)? else {
            return Ok(None);
        };
        if !is_white(byte) {
            return Ok(Some(byte));
        }
        *position = past(position, &[byte])?;
    }
    Err(io::Error::from(ErrorKind::Other))
}

// Reads a byte, and returns whether it is this one.
fn next_is<R: Read>(reader: &mut BufReader<R>, byte: u8) -> io::Result<bool>
    ensures { IfOk result (λ is. IfSome (reader_remaining R.remaining reader.old)
        (λ xs. IsNextByte is byte xs (reader_remaining R.remaining reader.new))) }
{
    match next_byte(reader)? {
        Some(next) => Ok(next == byte),
        None => Ok(false),
    }
}

// Returns whether this byte and the next two are a byte order mark.
fn is_mark<R: Read>(reader: &mut BufReader<R>, byte: u8) -> io::Result<bool>
    ensures { IfOk result (λ is. IfSome (reader_remaining R.remaining reader.old)
        (λ rest. is ≡ begins_with_mark (byte ∷ rest))) }
{
    Ok(byte == 0xef && next_is(reader, 0xbb)? && next_is(reader, 0xbf)?)
}

// Returns why the input isn't an array, by its first byte that isn't whitespace. Returns `None` for `[`.
pub(crate) fn not_an_array<R: Read>(
    reader: &mut BufReader<R>,
    first: Option<u8>,
) -> io::Result<Option<&'static str>>
    ensures cause { IfOk result (λ cause. IfSome (reader_remaining R.remaining reader.old)
        (λ rest. option_map (λ c. c.now) cause ≡ head_error first rest)) }
    ensures array { first ≡ Some 91 → reader.new ≡ reader.old }
{
    let Some(byte) = first else {
        return Ok(Some("EOF while parsing a value"));
    };
    if byte == b'[' {
        return Ok(None);
    }
    if is_mark(reader, byte)? {
        return Ok(Some("byte order mark"));
    }
    Ok(Some("not an array"))
}

// Returns how many whitespace bytes these begin with.
pub(crate) fn blanks(bytes: &[u8]) -> usize
    ensures value { result ≡ blanks bytes.now }
    ensures within { result ≤ length bytes.now }
{
    let mut start = 0;
    while start < bytes.len() && is_white(bytes[start]) {
        start += 1;
    }
    start
}

pub(crate) fn trim_end(bytes: &[u8]) -> &[u8]
    ensures { result.now ≡ trim_end bytes.now }
{
    let mut end = bytes.len();
    while end > 0 && is_white(bytes[end - 1]) {
        end -= 1;
    }
    &bytes[..end]
}
