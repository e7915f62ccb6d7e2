//! The result for the bytes so far, if the input ended after them.
ghost use Rattle.std.specs.Prelude.{◌≡◌, ◌+◌, ◌^◌, ◌<◌, List, None, Some, is_some, option_map, true, ℕ};
ghost use Rattle.jiter_incremental.specs.Words.{Arrived, IsLeft, end_of, shown, HasArrived, Opened, Settled, strictly};
ghost use Rattle.jiter_incremental.specs.Words.{AnswersSo, IsEndFault, IsInside, kind_at_end, so_far, document, Tree};
ghost use Rattle.jiter_incremental.specs.Words.{fault_kind, is_active, end_kind_of, view};

use crate::reader::{Awaits, Reader, Token};
use crate::slot::innermost_kind;
use jiter_scan::errors::{Fault, FaultKind, fault_at};
use jiter_steps::parse::ContainerKind;
use jiter_value::value::JsonValue;

impl Reader {
    // After an item or member, or an opening bracket.
    fn container_end(&self, root: &JsonValue<'static>) -> Option<FaultKind>
        requires inside { 0 < self.now.depth → (h : ContainerKind) × IsInside self.now.depth (view root.now) h }
        ensures none { self.now.depth ≡ 0 → result ≡ None }
        ensures some { (h : ContainerKind) → IsInside self.now.depth (view root.now) h
            → option_map fault_kind result ≡ Some (end_kind_of h) }
    {
        if self.depth == 0 {
            None
        } else {
            Some(innermost_kind(root, self.depth).end_kind())
        }
    }

    // With partial reading off, and no token unfinished.
    fn end_between(&self, root: &JsonValue<'static>) -> Option<FaultKind>
        requires { (s : Arrived) × IsLeft (document self.now (view root.now)).value s }
        ensures { (s : Arrived) → IsLeft (document self.now (view root.now)).value s
            → option_map fault_kind result ≡ end_of s }
    {
        match self.awaits {
            Awaits::Value | Awaits::Next => Some(FaultKind::EofWhileParsingValue),
            Awaits::Colon => Some(FaultKind::EofWhileParsingObject),
            _ => self.container_end(root),
        }
    }

    // With partial reading off. A number can be complete without a byte after it.
    fn end_kind(&self, root: &JsonValue<'static>) -> Option<FaultKind>
        requires { (t : List ℕ) × (o : Opened) × Settled (document self.now (view root.now)) t o }
        ensures { (t : List ℕ) → (o : Opened) → (s : Settled (document self.now (view root.now)) t o)
            → option_map fault_kind result ≡ kind_at_end s.apart o }
    {
        match self.token {
            Token::Nothing => self.end_between(root),
            Token::Word => Some(FaultKind::EofWhileParsingValue),
            Token::Number => {
                if self.number.is_whole() {
                    self.container_end(root)
                } else {
                    Some(FaultKind::EofWhileParsingValue)
                }
            }
            _ => Some(FaultKind::EofWhileParsingString),
        }
    }

    fn end_fault(&self, root: &JsonValue<'static>) -> Option<Fault>
        requires settled { (t : List ℕ) × (o : Opened) × Settled (document self.now (view root.now)) t o }
        requires room { self.now.base + self.now.at < 2 ^ 64 }
        ensures { (t : List ℕ) → (o : Opened) → (s : Settled (document self.now (view root.now)) t o)
            → IsEndFault (document self.now (view root.now)) (kind_at_end s.apart o) result }
    {
        match self.end_kind(root) {
            Some(kind) => Some(fault_at(kind, self.position())),
            None => None,
        }
    }

    /// Returns the first error with partial reading off, or `None` if the bytes so far are a document.
    pub fn strict_fault(&self, root: &JsonValue<'static>) -> Option<Fault>
        requires arrived { (t : List ℕ) × HasArrived (document self.now (view root.now)) t }
        requires room { self.now.base + self.now.at < 2 ^ 64 }
        ensures { (t : List ℕ) → HasArrived (document self.now (view root.now)) t
            → AnswersSo (strictly self.now.settings) t result (Some (view root.now)) }
    {
        if self.first.is_some() {
            return self.first;
        }
        self.end_fault(root)
    }

    fn has_value(&self) -> bool
        ensures { (v : Tree) → (t : List ℕ) → (o : Opened) → (s : Settled (document self.now v) t o)
            → result ≡ is_some (shown (so_far s.apart o)) }
    {
        0 < self.depth || self.shown || self.is_whole()
    }

    // A partial mode fails at the end for two reasons: the string that it keeps is invalid, or there is no value yet.
    #[inline(always)]
    fn partial_fault(&self, root: &JsonValue<'static>) -> Option<Fault>
        requires arrived { (t : List ℕ) × HasArrived (document self.now (view root.now)) t }
        requires room { self.now.base + self.now.at < 2 ^ 64 }
        requires unset { self.now.fault ≡ None }
        requires active { is_active self.now.settings.mode ≡ true }
        ensures { (t : List ℕ) → HasArrived (document self.now (view root.now)) t
            → AnswersSo self.now.settings t result (Some (view root.now)) }
    {
        if !self.shown && self.keeps() {
            let index = self.begin + 1 + self.string.text().len();
            return Some(fault_at(FaultKind::InvalidUnicodeCodePoint, index));
        }
        if self.has_value() {
            return None;
        }
        self.end_fault(root)
    }

    /// Returns the error of the bytes so far in the document's mode, or `None` if they have a value.
    #[inline(always)]
    pub fn mode_fault(&self, root: &JsonValue<'static>) -> Option<Fault>
        requires arrived { (t : List ℕ) × HasArrived (document self.now (view root.now)) t }
        requires room { self.now.base + self.now.at < 2 ^ 64 }
        ensures { (t : List ℕ) → HasArrived (document self.now (view root.now)) t
            → AnswersSo self.now.settings t result (Some (view root.now)) }
    {
        if self.fault.is_some() {
            return self.fault;
        }
        if self.settings.mode.is_active() {
            self.partial_fault(root)
        } else {
            self.strict_fault(root)
        }
    }
}
