//! A document walked through by steps, each of its texts and keys read.
use crate::mark::mark;
use crate::outcome::Outcome;
use crate::stop::{Stop, is_short};
use jiter::{Jiter, JiterError, JiterResult, PartialMode};
use std::alloc::{AllocError, Global};

// What comes next.
#[derive(Clone, Copy)]
enum Next {
    Value,
    // After a bracket or a part: nothing more, or what stands after the part.
    After,
}

// A walk: the reader, the open containers, whether each is an array, what was read, and whether memory was refused.
#[derive(Drop)]
struct Walk<'j> {
    bytes: &'j [u8],
    jiter: Jiter<'j>,
    arrays: Vec<bool>,
    line: String,
    refused: bool,
    known: bool,
}

/// What a walk through a document comes to: its texts and keys on one line. Where memory is refused for one the reader
/// is at its first byte; a text is then read again, and the walk goes on.
pub fn outcome(
    alloc: Global,
    bytes: &[u8],
    mode: PartialMode,
    known: bool,
) -> Result<Outcome, AllocError> {
    let mut walk = Walk {
        bytes,
        jiter: reader(bytes, mode),
        arrays: Vec::new(alloc),
        line: String::new(alloc),
        refused: false,
        known,
    };
    match walk.go_on(alloc) {
        Ok(()) => {}
        Err(Stop::Reader(error)) if !is_short(&error) => {
            let line = format!(in alloc; "{} at {}", error.error_type, error.index)?;
            walk.line.push_str(line.as_str())?;
        }
        Err(stop) => return stop.outcome(alloc),
    }
    if walk.refused {
        Ok(Outcome::AllocFailed(walk.line))
    } else {
        Ok(Outcome::Answered(walk.line))
    }
}

// A reader, which in one mode reads truncated strings too.
fn reader(bytes: &[u8], mode: PartialMode) -> Jiter<'_> {
    let jiter = Jiter::new(bytes).with_allow_inf_nan();
    match mode {
        PartialMode::TrailingStrings => jiter.with_allow_partial_strings(),
        _ => jiter,
    }
}

// Ends the section of a call, and copies the string that it returns.
fn copied(alloc: Global, reply: JiterResult<&str>) -> Result<String, Stop> {
    let _ = mark(alloc);
    let text = reply?;
    Ok(String::from_str(alloc, text)?)
}

// The same for a key.
fn copied_key(alloc: Global, reply: JiterResult<Option<&str>>) -> Result<Option<String>, Stop> {
    let _ = mark(alloc);
    match reply? {
        Some(text) => Ok(Some(String::from_str(alloc, text)?)),
        None => Ok(None),
    }
}

impl<'j> Walk<'j> {
    // Walks to the end of the value.
    fn go_on(&mut self, alloc: Global) -> Result<(), Stop> {
        let mut next = Next::Value;
        for _ in 0..self.bytes.len().saturating_add(1).saturating_mul(2) {
            next = match next {
                Next::Value => self.begin(alloc)?,
                Next::After => match self.arrays.last() {
                    None => return Ok(()),
                    Some(true) => self.item()?,
                    Some(false) => self.key(alloc)?,
                },
            };
        }
        Err(Stop::Broken("the walk does not end"))
    }

    // Reads a text, skips another scalar, or opens a container.
    fn begin(&mut self, alloc: Global) -> Result<Next, Stop> {
        match self.jiter.peek()?.into_inner() {
            b'[' => self.open_array(),
            b'{' => self.open_object(alloc),
            b'"' => self.text(alloc),
            _ => {
                self.jiter.next_skip()?;
                Ok(Next::After)
            }
        }
    }

    fn open_array(&mut self) -> Result<Next, Stop> {
        match self.jiter.next_array()? {
            Some(_) => {
                self.enter(true)?;
                Ok(Next::Value)
            }
            None => Ok(Next::After),
        }
    }

    fn open_object(&mut self, alloc: Global) -> Result<Next, Stop> {
        let first = self.first_quote();
        let key = self.first_key(alloc);
        match self.kept(key, first)? {
            Some(text) => {
                self.enter(false)?;
                self.tell(text.as_str())?;
                Ok(Next::Value)
            }
            None => Ok(Next::After),
        }
    }

    fn item(&mut self) -> Result<Next, Stop> {
        match self.jiter.array_step()? {
            Some(_) => Ok(Next::Value),
            None => {
                let _ = self.arrays.pop();
                Ok(Next::After)
            }
        }
    }

    fn key(&mut self, alloc: Global) -> Result<Next, Stop> {
        let first = self.first_quote();
        let _ = mark(alloc);
        let key = copied_key(alloc, self.jiter.next_key(alloc));
        match self.kept(key, first)? {
            Some(text) => {
                self.tell(text.as_str())?;
                Ok(Next::Value)
            }
            None => {
                let _ = self.arrays.pop();
                Ok(Next::After)
            }
        }
    }

    // Reads a text; where memory is refused for it, once more.
    fn text(&mut self, alloc: Global) -> Result<Next, Stop> {
        let first = self.first_quote();
        let reply = self.read_text(alloc);
        let text = match reply {
            Err(Stop::Reader(error)) if is_short(&error) => {
                self.expect_at(&error, first)?;
                self.refused = true;
                match self.read_text(alloc) {
                    Ok(text) => text,
                    Err(_) => return Err(Stop::Broken("a text is refused twice")),
                }
            }
            Err(stop) => return Err(stop),
            Ok(text) => text,
        };
        self.tell(text.as_str())?;
        Ok(Next::After)
    }

    // The text where the reader stands.
    fn read_text(&mut self, alloc: Global) -> Result<String, Stop> {
        if !self.known {
            let _ = mark(alloc);
            return copied(alloc, self.jiter.next_str(alloc));
        }
        match self.jiter.peek()?.into_inner() {
            b'"' => {
                let _ = mark(alloc);
                copied(alloc, self.jiter.known_str(alloc))
            }
            _ => Err(Stop::Broken("no text stands here")),
        }
    }

    // The first key of the object where the reader stands.
    fn first_key(&mut self, alloc: Global) -> Result<Option<String>, Stop> {
        if !self.known {
            let _ = mark(alloc);
            return copied_key(alloc, self.jiter.next_object(alloc));
        }
        match self.jiter.peek()?.into_inner() {
            b'{' => {
                let _ = mark(alloc);
                copied_key(alloc, self.jiter.known_object(alloc))
            }
            _ => Err(Stop::Broken("no object stands here")),
        }
    }

    // A key's reply: after an allocation failed the reader is at the key's first byte.
    fn kept(
        &self,
        key: Result<Option<String>, Stop>,
        first: usize,
    ) -> Result<Option<String>, Stop> {
        match key {
            Err(Stop::Reader(error)) if is_short(&error) => {
                self.expect_at(&error, first)?;
                Err(Stop::Reader(error))
            }
            other => other,
        }
    }

    // The error's index and the reader's position are this index.
    fn expect_at(&self, error: &JiterError, index: usize) -> Result<(), Stop> {
        if error.index == index && self.jiter.current_index() == index {
            Ok(())
        } else {
            Err(Stop::Broken("the reader does not stand at the text"))
        }
    }

    // The index of the first quote at the reader's place or after it, or the length.
    fn first_quote(&self) -> usize {
        for index in self.jiter.current_index()..self.bytes.len() {
            if self.bytes[index] == b'"' {
                return index;
            }
        }
        self.bytes.len()
    }

    // Goes into a container that is not empty.
    fn enter(&mut self, is_array: bool) -> Result<(), AllocError> {
        match self.arrays.push(is_array) {
            Ok(()) => Ok(()),
            Err(_) => Err(AllocError),
        }
    }

    fn tell(&mut self, text: &str) -> Result<(), AllocError> {
        self.line.push_str(text)?;
        self.line.push_str(" ")
    }
}
