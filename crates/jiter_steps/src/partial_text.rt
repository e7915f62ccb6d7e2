//! UTF-8 in chunks (RFC 8259, 8.1), each of which may end inside a character.
ghost use Rattle.std.specs.Prelude.{◌≡◌, ℕ, ◌+◌, ◌<◌, ◌≤◌, ◌++◌, [], Bool, IfOk, List, OnErr, OnOk, false};
ghost use Rattle.std.specs.Prelude.{length, ◌&&◌, ◌↔◌, IsTrue, drop, nat_lt, not, string_bytes, take, true};
ghost use Rattle.std.specs.Prelude.{if◌then◌else◌, encode_utf8, IsAscii, IsUtf8};
ghost use Rattle.jiter_steps.specs.Words.{invalid_code_point, taken, failed, HoldsText, IsUnfinished};
ghost use Rattle.jiter_steps.specs.Words.{IsWhole, nothing, with_text, checked};

use crate::pending_bytes::PendingBytes;
use crate::utf8::valid_utf8_end;
use jiter_scan::memory::{AllocFailed, push_ascii, push_char, push_text};
use jiter_scan::text::utf8_text;
use std::alloc::Global;
use std::marker::Model;
use std::mem;

// An incomplete character lacks at most this many bytes.
pub(crate) const MOST_MISSING: usize = 3;

/// The characters so far, and the bytes of an incomplete one; or the characters before the first wrong byte.
#[derive(Drop)]
pub struct PartialText {
    text: String,
    rest: PendingBytes,
    broken: bool,
}

impl Model for PartialText {
    ghost use Rattle.std.specs.Prelude.{◌≤◌, length, string_bytes};
    ghost use Rattle.jiter_steps.specs.PartialText.{SoFar};

    ghost Value = { SoFar };

    ghost view = { λ o. record { text = string_bytes o.text; rest = o.rest; broken = o.broken } };

    ghost invariant = { λ o. length o.rest ≤ 3 };
}

impl PartialText {
    /// Returns a `PartialText` without bytes. Does not allocate.
    pub fn new(alloc: Global) -> PartialText
        ensures { result ≡ nothing }
    {
        PartialText {
            text: String::new(alloc),
            rest: PendingBytes::new(),
            broken: false,
        }
    }

    // `bytes` begins with those of the incomplete character, if there is one.
    fn absorb(&mut self, bytes: &[u8]) -> Result<(), AllocFailed>
        requires { self.old.broken ≡ false }
        ensures taken { (d : List ℕ) → d ≡ self.old.text ++ bytes.now
            → OnOk result (HoldsText self.new d) }
        ensures refused { OnErr result (self.new ≡ self.old) }
    {
        let (right, wrong) = valid_utf8_end(bytes);
        push_text(&mut self.text, utf8_text(&bytes[..right]))?;
        if wrong {
            self.broken = true;
            return Ok(());
        }
        self.rest = PendingBytes::new().with(&bytes[right..]);
        Ok(())
    }

    // Returns how many bytes the incomplete character lacks, by its first one. Once it has them, the next read begins with
    // a complete character.
    fn missing(&self) -> usize
        requires { 0 < length self.now.rest }
        ensures { (0 < result) × (result ≤ 3) }
    {
        let held = self.rest.as_slice();
        let width = match held[0] {
            0xF0..=0xFF => 4usize,
            0xE0..=0xEF => 3,
            _ => 2,
        };
        width.saturating_sub(held.len()).max(1)
    }

    /// Takes the first bytes of `run` and returns how many, at least one if there is one. An error changes nothing.
    pub fn add(&mut self, run: &[u8]) -> Result<usize, AllocFailed>
        ensures taken { (d : List ℕ) → HoldsText (self.old) d
            → IfOk result (λ n. HoldsText self.new (d ++ take n run.now)) }
        ensures within { IfOk result (λ n. n ≤ length run.now) }
        ensures some { IfOk result (λ n. 0 < length run.now → 0 < n) }
        ensures refused { OnErr result (self.new ≡ self.old) }
    {
        if self.broken {
            return Ok(run.len());
        }
        let count = if self.rest.as_slice().is_empty() {
            self.absorb(run)?;
            run.len()
        } else {
            let few = run.len().min(self.missing());
            let held = self.rest.with(&run[..few]);
            self.absorb(held.as_slice())?;
            few
        };
        Ok(count)
    }

    // An incomplete character is before it.
    fn add_after(&mut self, c: char) -> Result<(), AllocFailed>
        requires { self.old.broken ≡ false }
        ensures taken { (d : List ℕ) → HoldsText (self.old) d
            → OnOk result (HoldsText self.new (d ++ encode_utf8 c)) }
        ensures refused { OnErr result (self.new ≡ self.old) }
    {
        let mut bytes = [0; 4];
        let held = self.rest.with(c.encode_utf8(&mut bytes).as_bytes());
        self.absorb(held.as_slice())
    }

    /// Takes the character of an escape. If the allocation fails, nothing changes.
    #[inline(always)]
    pub fn add_char(&mut self, c: char) -> Result<(), AllocFailed>
        ensures taken { (d : List ℕ) → HoldsText (self.old) d
            → OnOk result (HoldsText self.new (d ++ encode_utf8 c)) }
        ensures refused { OnErr result (self.new ≡ self.old) }
    {
        if self.is_whole() {
            return push_char(&mut self.text, c);
        }
        if self.broken {
            return Ok(());
        }
        self.add_after(c)
    }

    /// Takes bytes below 80 hex. Call it only if no character is incomplete. If the allocation fails, nothing changes.
    #[inline(always)]
    pub fn add_ascii(&mut self, bytes: &[u8]) -> Result<(), AllocFailed>
        requires { IsAscii bytes.now }
        ensures ok { OnOk result (self.new ≡ with_text self.old (self.old.text ++ bytes.now)) }
        ensures refused { OnErr result (self.new ≡ self.old) }
        ensures some { OnErr result (0 < length bytes.now) }
    {
        push_ascii(&mut self.text, bytes)
    }

    /// Returns whether the bytes so far are complete characters.
    #[inline(always)]
    pub fn is_whole(&self) -> bool
        ensures { IsTrue result ↔ IsWhole self.now }
    {
        !self.broken && self.rest.as_slice().is_empty()
    }

    /// Returns whether the bytes so far are UTF-8. With `partial`, an incomplete character at their end is left out.
    ///
    /// If the bytes are not UTF-8, the first wrong one is after the characters so far.
    pub fn is_text(&self, partial: bool) -> bool
        ensures kept { partial ≡ true → result ≡ not self.now.broken }
        ensures checked { (d : List ℕ) → HoldsText self.now d → (i e : ℕ) → (owned : Bool)
            → checked partial i owned d e
            ≡ (if result then taken (record { owned = owned; bytes = self.now.text }) e
            else failed invalid_code_point (i + length self.now.text)) }
    {
        !self.broken && (partial || self.rest.as_slice().is_empty())
    }

    /// Returns the characters so far.
    pub fn text(&self) -> &str
        ensures { result.now ≡ self.now.text }
    {
        self.text.as_str()
    }

    /// Moves the characters so far out, and leaves none. Does not allocate.
    pub fn take_text(&mut self) -> String
        ensures text { string_bytes result ≡ self.old.text }
        ensures rest { self.new ≡ with_text self.old [] }
    {
        let alloc = *self.text.allocator();
        mem::replace(&mut self.text, String::new(alloc))
    }

    /// Replaces the characters so far.
    pub fn give_back(&mut self, text: String)
        ensures { self.new ≡ with_text self.old (string_bytes text) }
    {
        self.text = text;
    }
}
