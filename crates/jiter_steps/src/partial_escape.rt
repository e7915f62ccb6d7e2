//! Escapes that a chunk may truncate (RFC 8259, 7). Their bytes, twelve at most, are held until the escape is complete.
ghost use Rattle.std.specs.Prelude.{◌≡◌, ◌+◌, ◌<◌, ◌≤◌, ◌∷◌, ◌++◌, [], length, take};
ghost use Rattle.jiter_steps.specs.Words.{IsSpelled, IsWithin, begun, held_after, cut, over, event_at};

use crate::escape::{StringEnd, StringEvent, event_at};
use crate::pending_bytes::PendingBytes;
use jiter_scan::errors::FaultKind;
use std::marker::Model;

/// What an escape is after its next bytes.
#[derive(Clone, Copy, Debug, PartialEq, Eq)]
pub enum EscapeStep {
    /// It is incomplete.
    Part,
    /// It is complete, and means this character.
    Whole(char),
    /// It is wrong: the error's kind, and how many bytes its index is after the backslash.
    Wrong(FaultKind, usize),
}

/// An escape whose backslash was read, but not all of it.
#[derive(Drop)]
pub struct PartialEscape {
    held: PendingBytes,
}

impl Model for PartialEscape {
    ghost use Rattle.std.specs.Prelude.{◌≡◌, List, ℕ};
    ghost use Rattle.jiter_steps.specs.StringReading.{cut, over, event_at};

    ghost Value = { List ℕ };

    ghost view = { λ e. e.held };

    ghost invariant = { λ e. event_at e.held 0 ≡ over cut };
}

impl PartialEscape {
    /// Returns an escape of which only the backslash was read.
    #[tactic(auto, unfolding(crate::specs::StringReading::event_at))]
    pub fn new() -> PartialEscape
        ensures { result ≡ begun }
    {
        PartialEscape {
            held: PendingBytes::new().with(b"\\"),
        }
    }

    /// Returns an escape of which these bytes were read. They must be an incomplete escape.
    pub fn cut(bytes: &[u8]) -> PartialEscape
        requires { event_at bytes.now 0 ≡ over cut }
        ensures { result ≡ bytes.now }
    {
        PartialEscape {
            held: PendingBytes::new().with(bytes),
        }
    }

    /// Returns how many of its bytes were read, including the backslash.
    pub fn count(&self) -> usize
        ensures { result ≡ length self.now }
    {
        self.held.as_slice().len()
    }

    /// Reads the next byte and returns what the escape is then. Keeps the byte if the escape is still incomplete.
    pub fn next(&mut self, byte: u8) -> EscapeStep
        ensures spelled { IsSpelled (self.old ++ byte ∷ []) result }
        ensures held { self.new ≡ held_after self.old (byte ∷ []) result }
        ensures within { IsWithin (length self.old + 1) result }
    {
        let longer = self.held.with(&[byte]);
        match event_at(longer.as_slice(), 0) {
            StringEvent::Escape(c, _) => EscapeStep::Whole(c),
            StringEvent::End(StringEnd::Wrong(fault)) => EscapeStep::Wrong(fault.kind, fault.index),
            StringEvent::End(StringEnd::Cut) => {
                self.held = longer;
                EscapeStep::Part
            }
            StringEvent::End(StringEnd::Closed(_)) => unreachable!(),
            StringEvent::End(StringEnd::Unclosed) => unreachable!(),
        }
    }
}
