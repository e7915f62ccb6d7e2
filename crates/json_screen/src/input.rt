//! Which bytes of the input are the document.
ghost use Rattle.std.specs.Prelude.{◌≡◌, ◌++◌, [], IfOk, List, ℕ, OnOk};
ghost use Rattle.json_screen.specs.Arrived.{HasArrived};
ghost use Rattle.json_screen.specs.Parts.{Grows, at, part_step, parts, step};
ghost use Rattle.json_screen.specs.declared.input.Options.{Options};

use jiter::PartialMode;
use jiter_incremental::IncrementalParser;
use std::alloc::{AllocError, Global};

/// How a document is read.
#[derive(Debug, Clone, Copy, PartialEq, Eq)]
pub struct Options {
    /// How a truncated document is read; never `Off`.
    pub mode: PartialMode,
    /// Whether `NaN`, `Infinity` and `-Infinity` are numbers.
    pub inf_nan: bool,
}

/// Where the next byte of the input is.
#[derive(Debug, Clone, Copy, PartialEq, Eq)]
pub enum Place {
    /// Before the document: no bracket has come.
    Before,
    /// In the document, outside of its strings.
    Between,
    /// In a string.
    Quoted,
    /// After a backslash in a string.
    Escaped,
    /// After the document.
    After,
}

/// The place of the next byte, and how many containers are open there.
#[derive(Debug, Clone, Copy, PartialEq, Eq)]
pub struct Span {
    /// Where the next byte is.
    pub place: Place,
    /// The number of open containers.
    pub depth: usize,
}

fn at(place: Place, depth: usize) -> Span
    ensures { result ≡ at place depth }
{
    Span { place, depth }
}

impl Span {
    /// Returns the place after one more byte.
    ///
    /// The document begins at the first `[` or `{`, and ends at the `]` or `}` after which none is open. Brackets in
    /// strings don't count.
    pub fn step(self, byte: u8) -> Span
        ensures { result ≡ step self byte }
    {
        let depth = self.depth;
        let opens = byte == b'[' || byte == b'{';
        let closes = byte == b']' || byte == b'}';
        match self.place {
            Place::Before if opens => at(Place::Between, 1),
            Place::Between if byte == b'"' => at(Place::Quoted, depth),
            Place::Between if opens => at(Place::Between, depth.saturating_add(1)),
            Place::Between if closes && depth > 1 => at(Place::Between, depth - 1),
            Place::Between if closes => at(Place::After, 0),
            Place::Quoted if byte == b'"' => at(Place::Between, depth),
            Place::Quoted if byte == b'\\' => at(Place::Escaped, depth),
            Place::Escaped => at(Place::Quoted, depth),
            place => at(place, depth),
        }
    }
}

/// The input so far: the document, and the text around it.
#[derive(Drop)]
pub struct Input {
    /// The place of the next byte.
    pub span: Span,
    /// The bytes before the document.
    pub before: Vec<u8>,
    /// The bytes of the document.
    pub inside: Vec<u8>,
    /// The bytes after the document.
    pub after: Vec<u8>,
    /// The document, parsed.
    pub document: IncrementalParser,
}

impl Input {
    /// Returns the input of which no byte has come.
    pub fn new(alloc: Global, options: Options) -> Input
        ensures { HasArrived options result [] }
    {
        Input {
            span: at(Place::Before, 0),
            before: Vec::new(alloc),
            inside: Vec::new(alloc),
            after: Vec::new(alloc),
            document: IncrementalParser::new(alloc, options.inf_nan, options.mode),
        }
    }

    /// Takes the next bytes of the input.
    ///
    /// # Errors
    ///
    /// - `AllocError` if an allocation fails; some of the bytes are taken then
    pub fn take(&mut self, piece: &[u8]) -> Result<(), AllocError>
        ensures { (options : Options) → (t : List ℕ) → HasArrived options self.old t
            → OnOk result (HasArrived options self.new (t ++ piece.now)) }
    {
        let count = self.inside.len();
        for byte in piece {
            self.take_byte(*byte)?;
        }
        self.document.push(&self.inside[count..])
    }

    /// Returns all bytes of the input.
    ///
    /// # Errors
    ///
    /// - `AllocError` if an allocation fails
    pub fn bytes(&self, alloc: Global) -> Result<Vec<u8>, AllocError>
        ensures { IfOk result (λ bytes. bytes.items
            ≡ (self.now.before.items ++ self.now.inside.items) ++ self.now.after.items) }
    {
        let mut bytes = Vec::from_slice(alloc, self.before.as_slice())?;
        bytes.extend_from_slice(self.inside.as_slice())?;
        bytes.extend_from_slice(self.after.as_slice())?;
        Ok(bytes)
    }

    fn take_byte(&mut self, byte: u8) -> Result<(), AllocError>
        ensures parts { OnOk result (parts self.new ≡ part_step (parts self.old) byte) }
        ensures grows { OnOk result (Grows self.old.inside.items self.new.inside.items) }
        ensures document { self.new.document ≡ self.old.document }
    {
        let old = self.span.place;
        self.span = self.span.step(byte);
        match (old, self.span.place) {
            (Place::Before, Place::Before) => self.before.push(byte)?,
            (Place::After, _) => self.after.push(byte)?,
            _ => self.inside.push(byte)?,
        }
        Ok(())
    }
}
