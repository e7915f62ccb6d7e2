//! A document that comes in pieces, each of them pushed until it is taken.
use crate::answers::first_of;
use crate::outcome::Outcome;
use crate::stop::Stop;
use jiter::{JsonError, JsonErrorType as Kind, JsonValue, PartialMode};
use jiter_incremental::IncrementalParser;
use std::alloc::{AllocError, Global};

// What a parse answers.
type Answer = Result<JsonValue<'static>, JsonError>;

// A reading of these bytes, and where a push of it was refused, if one was.
#[derive(Drop)]
struct Pushing<'b> {
    bytes: &'b [u8],
    mode: PartialMode,
    incremental_parser: IncrementalParser,
    refused: Option<usize>,
}

/// What a reading in pieces of this size comes to. Where a push is refused the value is that of the bytes that were
/// taken, and the rest of the piece is pushed again; in the end the value is that of all bytes, and they are finished
/// as a parse of the whole.
pub fn outcome(
    alloc: Global,
    bytes: &[u8],
    mode: PartialMode,
    size: usize,
) -> Result<Outcome, AllocError> {
    let pushing = Pushing {
        bytes,
        mode,
        incremental_parser: IncrementalParser::new(alloc, true, mode),
        refused: None,
    };
    match pushing.go_on(alloc, size) {
        Ok(outcome) => Ok(outcome),
        Err(stop) => stop.outcome(alloc),
    }
}

impl Pushing<'_> {
    // Pushes all pieces, and ends the reading.
    fn go_on(mut self, alloc: Global, size: usize) -> Result<Outcome, Stop> {
        for piece in self.bytes.chunks(size.max(1)) {
            self.push(alloc, piece)?;
        }
        self.end(alloc)
    }

    // Pushes a piece; where memory is refused for it, the rest of it once more.
    fn push(&mut self, alloc: Global, piece: &[u8]) -> Result<(), Stop> {
        let before = self.incremental_parser.position();
        if self.incremental_parser.push(piece).is_err() {
            let rest = self.rest(before, piece)?;
            self.refused = Some(self.incremental_parser.position());
            self.expect_parsed(alloc)?;
            if self.incremental_parser.push(rest).is_err() {
                return Err(Stop::Broken("the rest of a piece is refused too"));
            }
        }
        if self.incremental_parser.position().checked_sub(before) == Some(piece.len()) {
            Ok(())
        } else {
            Err(Stop::Broken("the reading does not stand after the piece"))
        }
    }

    // The bytes of a piece that a refused push did not take.
    fn rest<'p>(&self, before: usize, piece: &'p [u8]) -> Result<&'p [u8], Stop> {
        if self.refused.is_some() {
            return Err(Stop::Broken("two pushes are refused"));
        }
        let taken = self.incremental_parser.position().checked_sub(before);
        match taken.and_then(|count| piece.get(count..)) {
            Some(rest) => Ok(rest),
            None => Err(Stop::Broken("a refused push took more than its piece")),
        }
    }

    // What a parse answers. Where memory is refused for it, that is a request of the program itself, and no push's.
    fn parsed(&self, alloc: Global, prefix: &[u8], mode: PartialMode) -> Result<Answer, Stop> {
        match JsonValue::parse_owned(alloc, prefix, true, mode) {
            Err(error) if error.error_type == Kind::OutOfMemory => Err(match self.refused {
                None => Stop::Own(AllocError),
                Some(_) => Stop::Broken("a parse is refused too"),
            }),
            answer => Ok(answer),
        }
    }

    // The value so far is what a parse answers of exactly the bytes that were taken.
    fn expect_parsed(&self, alloc: Global) -> Result<(), Stop> {
        let prefix = self
            .bytes
            .get(..self.incremental_parser.position())
            .unwrap_or(&[]);
        let wanted = self.parsed(alloc, prefix, self.mode)?;
        let is_parsed = match (self.incremental_parser.value(), &wanted) {
            (Ok(value), Ok(other)) => value == other,
            (Err(error), Err(other)) => &error == other,
            _ => false,
        };
        if is_parsed {
            Ok(())
        } else {
            Err(Stop::Broken("the value is not that of the bytes so far"))
        }
    }

    // What is told of the value so far, or of where memory was refused.
    fn told(&self, alloc: Global) -> Result<Outcome, AllocError> {
        let told = match self.incremental_parser.value() {
            Ok(value) => Outcome::value(alloc, value)?,
            Err(error) => Outcome::of_text(alloc, self.bytes, &Err(error))?,
        };
        match (told, self.refused) {
            (Outcome::Answered(line), None) => Ok(Outcome::Answered(line)),
            (Outcome::Answered(_), Some(index)) => {
                let last = self.bytes.len().saturating_sub(1);
                Outcome::refused_at(alloc, index, first_of(self.bytes), last)
            }
            _ => Outcome::broken(alloc, "a value wants memory"),
        }
    }

    // The end: the value is that of all bytes, and finishing them answers as a parse of the whole.
    fn end(self, alloc: Global) -> Result<Outcome, Stop> {
        self.expect_parsed(alloc)?;
        let outcome = self.told(alloc)?;
        let whole = self.parsed(alloc, self.bytes, PartialMode::Off)?;
        let Pushing {
            incremental_parser,
            ..
        } = self;
        if incremental_parser.finish() == whole {
            Ok(outcome)
        } else {
            Err(Stop::Broken("the end is not that of a parse"))
        }
    }
}
