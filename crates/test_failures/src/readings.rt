//! Readings of one document, in each of which an allocation may fail.
use crate::outcome::Outcome;
use crate::stop::Stop;
use std::alloc::{AllocError, Global};

/// What the readings came to: their answer, and the line of the one that ran out of memory.
#[derive(Default, Drop)]
pub struct Readings {
    answer: Option<String>,
    refused: Option<String>,
}

impl Readings {
    /// Adds what a reading came to. All answers must be the same, and at most one allocation may fail.
    pub fn add(&mut self, outcome: Outcome) -> Result<(), Stop> {
        match outcome {
            Outcome::Answered(line) => self.answer(line),
            Outcome::AllocFailed(line) => self.refuse(line),
            Outcome::Broken(_) => Err(Stop::Broken("out of memory at another index")),
        }
    }

    fn answer(&mut self, line: String) -> Result<(), Stop> {
        match &self.answer {
            Some(other) if other.as_str() != line.as_str() => {
                Err(Stop::Broken("two readings of one document have two answers"))
            }
            Some(_) => Ok(()),
            None => {
                self.answer = Some(line);
                Ok(())
            }
        }
    }

    /// Adds that a reading ran out of memory.
    pub fn refuse(&mut self, line: String) -> Result<(), Stop> {
        if self.refused.is_some() {
            return Err(Stop::Broken("out of memory twice"));
        }
        self.refused = Some(line);
        Ok(())
    }

    /// Returns what all readings come to. If one ran out of memory, the line is the answer of the others.
    pub fn end(self, alloc: Global) -> Result<Outcome, AllocError> {
        let Readings { answer, refused } = self;
        match (answer, refused) {
            (Some(line), Some(_)) => Ok(Outcome::AllocFailed(line)),
            (Some(line), None) => Ok(Outcome::Answered(line)),
            (None, _) => Outcome::broken(alloc, "no reading has an answer"),
        }
    }
}
