//! What is on the screen, and what is written to change it.
ghost use Rattle.std.specs.Prelude.{◌≡◌, ◌-◌, ◌++◌, ◌≤◌, [], chars, IfOk, List, ℕ, OnOk, length, reverse, take};
ghost use Rattle.std.specs.Int.{is_in_range};
ghost use Rattle.std.specs.List.{fold};
ghost use Rattle.json_screen.specs.Rows.{closers, columns_of, empty_row, ended, filled, is_hidden, new_row, put_bytes, put_char, put_marked};
ghost use Rattle.json_screen.specs.Terminal.{dimmed, IsPlain, IsWholeRows, Redraws, ups};

use std::alloc::{AllocError, Global};

// `…` at the open place, before the closing brackets that have not come.
const MARK: &[u8] = b"\xe2\x80\xa6";

// No line wrap: on a terminal that is narrower than expected, a row then stays one row. Off only while rows are drawn, so
// that it isn't left off when the program is interrupted between two draws.
const WRAP_OFF: &[u8] = b"\x1b[?7l";

// Up one row; to the row's first column, and clear to the screen's end; dim; plain again, and line wrap on.
const UP: &[u8] = b"\x1bM";

const CLEAR: &[u8] = b"\r\x1b[J";

const DIM: &[u8] = b"\x1b[2m";

const END: &[u8] = b"\x1b[m\x1b[?7h";

// Control characters, DEL, C1 controls, and the marks that turn the direction of text.
fn is_hidden(c: char) -> bool
    ensures { result ≡ is_hidden c }
{
    is_within(c, '\0', '\x1f')
        || is_within(c, '\x7f', '\u{9f}')
        || c == '\u{61c}'
        || is_within(c, '\u{200e}', '\u{200f}')
        || is_within(c, '\u{202a}', '\u{202e}')
        || is_within(c, '\u{2066}', '\u{2069}')
}

fn is_within(c: char, first: char, last: char) -> bool
    ensures { result ≡ is_in_range first last c }
{
    first <= c && c <= last
}

fn columns_of(c: char) -> usize
    ensures { result ≡ columns_of c }
{
    match c {
        c if is_hidden(c) => 6,
        c if c < '\u{800}' => 1,
        _ => 2,
    }
}

/// A text for a terminal, in rows of at most `width` columns.
///
/// A hidden character is written as `\u` and four digits. A carriage return is left out. A character above U+07FF
/// counts as two columns.
#[derive(Drop)]
pub struct Rows {
    /// The rows, with line feeds between them.
    pub text: String,
    /// The columns that are free in the last row.
    pub left: usize,
    /// The columns of a row.
    pub width: usize,
    /// Where the text is dim from.
    pub mark: usize,
}

impl Rows {
    /// Returns one empty row.
    pub fn new(alloc: Global, width: usize) -> Rows
        ensures rows { filled result ≡ empty_row width }
        ensures width { result.width ≡ width }
    {
        Rows {
            text: String::new(alloc),
            left: width,
            width,
            mark: usize::MAX,
        }
    }

    /// Appends the characters of some bytes.
    ///
    /// # Errors
    ///
    /// - `AllocError` if an allocation fails; some of them are appended then
    pub fn append(&mut self, alloc: Global, bytes: &[u8]) -> Result<(), AllocError>
        ensures rows { OnOk result
            (filled self.new ≡ put_bytes self.old.width (filled self.old) bytes.now) }
        ensures width { self.new.width ≡ self.old.width }
    {
        let text = String::from_utf8_lossy(alloc, bytes)?;
        for c in text.as_str().chars() {
            self.push(alloc, c)?;
        }
        Ok(())
    }

    fn push(&mut self, alloc: Global, c: char) -> Result<(), AllocError>
        ensures rows { OnOk result (filled self.new ≡ put_char self.old.width (filled self.old) c) }
        ensures width { self.new.width ≡ self.old.width }
    {
        let columns = columns_of(c);
        if c == '\n' {
            return self.break_row();
        } else if c == '\r' {
            return Ok(());
        } else if self.left < columns {
            self.break_row()?;
        }
        self.left = self.left.saturating_sub(columns);
        if is_hidden(c) {
            let (high, low) = (c as u32 / 256, c as u32 % 256);
            let escape = format!(in alloc; "\\u{high:02x}{low:02x}")?;
            return self.text.push_str(escape.as_str());
        }
        self.text.push(c)
    }

    fn break_row(&mut self) -> Result<(), AllocError>
        ensures rows { OnOk result (filled self.new ≡ new_row self.old.width (filled self.old)) }
        ensures width { self.new.width ≡ self.old.width }
    {
        self.left = self.width;
        self.text.push('\n')
    }

    /// Ends the last row if it is not empty.
    ///
    /// # Errors
    ///
    /// - `AllocError` if an allocation fails
    pub fn end(&mut self) -> Result<(), AllocError>
        ensures { OnOk result (filled self.new ≡ ended self.old.width (filled self.old)) }
    {
        if self.left < self.width {
            self.break_row()?;
        }
        Ok(())
    }

    /// Appends the text of a value, with the mark before its last `depth` closing brackets.
    ///
    /// # Errors
    ///
    /// - `AllocError` if an allocation fails; some of the text is appended then
    pub fn append_marked(
        &mut self,
        alloc: Global,
        text: &[u8],
        depth: usize,
    ) -> Result<(), AllocError>
        ensures rows { OnOk result
            (filled self.new ≡ put_marked depth self.old.width (filled self.old) text.now) }
        ensures width { self.new.width ≡ self.old.width }
    {
        let place = open_place(text, depth);
        self.append(alloc, &text[..place])?;
        self.mark = self.text.len();
        self.append(alloc, MARK)?;
        self.append(alloc, &text[place..])
    }
}

// Where the last `depth` closing brackets of a value's text begin, with the whitespace before each.
fn open_place(text: &[u8], depth: usize) -> usize
    ensures place { result ≡ length text.now - closers depth (reverse text.now) }
    ensures within { result ≤ length text.now }
{
    let mut place = text.len();
    let mut left = depth;
    while place > 0 {
        let byte = text[place - 1];
        if byte != b' ' && byte != b'\n' {
            if left == 0 || byte != b']' && byte != b'}' {
                return place;
            }
            left -= 1;
        }
        place -= 1;
    }
    place
}

/// What a screen ends with.
#[derive(Debug, Drop)]
pub struct Shown {
    /// The rows, with line feeds between them.
    pub text: Vec<u8>,
    /// Where the text is dim from.
    pub mark: usize,
}

impl Shown {
    /// Returns no rows.
    pub fn new(alloc: Global) -> Shown
        ensures { result.text.items ≡ [] }
    {
        Shown {
            text: Vec::new(alloc),
            mark: usize::MAX,
        }
    }
}

/// Returns what to write so that a screen that ends with `old` ends with `new`.
///
/// It begins with the first row that changes, or that is dim in one of them. While it is drawn, lines don't wrap.
///
/// # Errors
///
/// - `AllocError` if an allocation fails
pub fn redraw(alloc: Global, old: &Shown, new: &Shown) -> Result<Vec<u8>, AllocError>
    ensures { IsPlain old.now.text.items → IsPlain new.now.text.items
        → IfOk result (λ drawn. Redraws (dimmed old.now.text.items old.now.mark)
        (dimmed new.now.text.items new.now.mark) drawn.items) }
{
    let mut drawn = Vec::new(alloc);
    let last = old.text.as_slice();
    let text = new.text.as_slice();
    if last == text && old.mark == new.mark {
        return Ok(drawn);
    }
    let was_dim = old.mark.min(last.len());
    let dim = new.mark.min(text.len());
    let begin = changed_row(&last[..was_dim], &text[..dim]);
    drawn.extend_from_slice(WRAP_OFF)?;
    append_ups(&mut drawn, &last[begin..])?;
    drawn.extend_from_slice(CLEAR)?;
    drawn.extend_from_slice(&text[begin..dim])?;
    drawn.extend_from_slice(DIM)?;
    drawn.extend_from_slice(&text[dim..])?;
    drawn.extend_from_slice(END)?;
    Ok(drawn)
}

// Up one row for each line feed.
fn append_ups(drawn: &mut Vec<u8>, rows: &[u8]) -> Result<(), AllocError>
    ensures { OnOk result (drawn.new.items ≡ drawn.old.items ++ ups rows.now) }
{
    for byte in rows {
        if *byte == b'\n' {
            drawn.extend_from_slice(UP)?;
        }
    }
    Ok(())
}

// Where the first row begins in which they differ.
fn changed_row(old: &[u8], new: &[u8]) -> usize
    ensures old { result ≤ length old.now }
    ensures new { result ≤ length new.now }
    ensures same { take result old.now ≡ take result new.now }
    ensures row { IsWholeRows (take result new.now) }
{
    let mut begin = 0;
    for i in 0..old.len().min(new.len()) {
        if old[i] != new[i] {
            return begin;
        }
        if new[i] == b'\n' {
            begin = i + 1;
        }
    }
    begin
}
