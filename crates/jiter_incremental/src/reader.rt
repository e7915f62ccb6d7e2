//! Reads a document that comes in chunks (RFC 8259). A push goes down the open containers by recursion and reads on.
ghost use Rattle.std.specs.Prelude.{◌≡◌, ◌⊎◌, ◌+◌, ◌-◌, ◌^◌, ◌<◌, ◌≤◌, ◌++◌, [], IfOk, List, None, Ok, OnErr};
ghost use Rattle.std.specs.Prelude.{OnOk, Some, length, false, take, true, ℕ};
ghost use Rattle.jiter_incremental.specs.Words.{HasArrived, HasEnded, IsComplete, IsOver, IsPaused, KeepsRoom};
ghost use Rattle.jiter_incremental.specs.Words.{MayRefuseAt, noted_in, ReadsThrough, Ready, Refuses, ReadsAsBefore};
ghost use Rattle.jiter_incremental.specs.Words.{Steps, Advanced, after_level, document, noted, refused, HasPart};
ghost use Rattle.jiter_incremental.specs.Words.{HasRoomAt, IsPut, nesting_limit, text_view, Tree, null, view};
ghost use Rattle.jiter_incremental.specs.declared.reader.Awaits.TheVariants as awaited;
ghost use Rattle.jiter_incremental.specs.declared.reader.Token.TheVariants as kind;

use crate::names::WordValue;
use crate::slot::put_in;
use jiter_scan::errors::{Fault, FaultKind, fault_at};
use jiter_scan::memory::AllocFailed;
use jiter_scan::number::partial_number::PartialNumber;
use jiter_scan::partial_word::PartialWord;
use jiter_steps::partial_string::PartialString;
use jiter_value::parse::settings::Settings;
use jiter_value::value::JsonValue;
use std::alloc::Global;
use std::borrow::CowStr;

/// Which scalar or key is unfinished.
#[derive(Clone, Copy, Debug)]
pub enum Token {
    /// None.
    Nothing,
    /// A literal, `NaN`, `Infinity` or `-Infinity`.
    Word,
    /// A number.
    Number,
    /// A string that is a value.
    Text,
    /// A key.
    Key,
}

/// What comes next, between two tokens.
#[derive(Clone, Copy, Debug)]
pub enum Awaits {
    /// A value: the document's, or a member's after its colon.
    Value,
    /// The colon after a key.
    Colon,
    /// The first item or member of a container, or its closing bracket.
    First,
    /// An item or member, after a comma.
    Next,
    /// A comma or the closing bracket, after an item or member.
    Comma,
    /// Nothing: the document's value is complete.
    Nothing,
}

/// All that is known of the bytes so far, except the value.
#[derive(Drop)]
pub struct Reader {
    pub(crate) alloc: Global,
    pub(crate) settings: Settings,
    // how many bytes came before this chunk, and the index in it
    pub(crate) base: usize,
    pub(crate) at: usize,
    // the position of the unfinished token
    pub(crate) begin: usize,
    // the number of open containers
    pub(crate) depth: usize,
    pub(crate) awaits: Awaits,
    pub(crate) token: Token,
    // whether the value holds the unfinished token
    pub(crate) shown: bool,
    pub(crate) name: WordValue,
    pub(crate) word: PartialWord,
    pub(crate) number: PartialNumber,
    pub(crate) string: PartialString,
    pub(crate) buffer: Vec<u8>,
    pub(crate) key: CowStr<'static>,
    // the first error in the document's mode; no later byte changes it
    pub(crate) fault: Option<Fault>,
    // the first error with partial reading off
    pub(crate) first: Option<Fault>,
}

fn first_of(first: Option<Fault>, fault: Fault) -> Option<Fault>
    ensures { result ≡ noted_in first fault.kind fault.index }
{
    match first {
        Some(other) => Some(other),
        None => Some(fault),
    }
}

// What comes next after a value inside so many containers.
#[inline(always)]
fn after_part(depth: usize) -> Awaits
    ensures { result ≡ after_level depth }
{
    if depth == 0 {
        Awaits::Nothing
    } else {
        Awaits::Comma
    }
}

impl Reader {
    /// Returns a reader that has taken no bytes. Does not allocate.
    pub fn new(alloc: Global, settings: Settings) -> Reader
        ensures arrived { HasArrived (document result null) [] }
        ensures settings { result.settings ≡ settings }
        ensures start { (result.base ≡ 0) × (result.at ≡ 0) }
        ensures closed { result.depth ≡ 0 }
    {
        Reader {
            alloc,
            settings,
            base: 0,
            at: 0,
            begin: 0,
            depth: 0,
            awaits: Awaits::Value,
            token: Token::Nothing,
            shown: false,
            name: WordValue::NaN,
            word: WordValue::NaN.begun(),
            number: PartialNumber::new(alloc),
            string: PartialString::new(alloc),
            buffer: Vec::new(alloc),
            key: CowStr::Borrowed(""),
            fault: None,
            first: None,
        }
    }

    /// Returns how many bytes were taken.
    #[inline(always)]
    pub fn position(&self) -> usize
        requires { self.now.base + self.now.at < 2 ^ 64 }
        ensures { result ≡ self.now.base + self.now.at }
    {
        self.base + self.at
    }

    // A final error: no later byte changes it.
    pub(crate) fn refuse(&mut self, kind: FaultKind, index: usize)
        ensures { self.new ≡ refused self.old kind index }
    {
        let fault = fault_at(kind, index);
        self.first = first_of(self.first, fault);
        self.fault = Some(fault);
    }

    // An error only with partial reading off: the mode forgives it and goes on.
    pub(crate) fn note(&mut self, kind: FaultKind, index: usize)
        ensures { self.new ≡ noted self.old kind index }
    {
        self.first = first_of(self.first, fault_at(kind, index));
    }

    // Whether no byte changes the results any more. A final error is in `first` too, so one test settles most bytes.
    #[inline(always)]
    pub(crate) fn is_over(&self) -> bool
        requires { self.now.first ≡ None → self.now.fault ≡ None }
        ensures over { (v : Tree) → result ≡ true → IsOver (document self.now v) }
        ensures unset { result ≡ false → self.now.fault ≡ None }
    {
        match self.first {
            None => false,
            Some(_) => {
                self.fault.is_some() || (matches!(self.token, Token::Nothing) && self.is_whole())
            }
        }
    }

    /// Returns whether the document's value is complete.
    pub fn is_whole(&self) -> bool
        ensures whole { result ≡ true → self.now.awaits ≡ awaited.Nothing }
        ensures open { result ≡ false → ¬ (self.now.awaits ≡ awaited.Nothing) }
    {
        matches!(self.awaits, Awaits::Nothing)
    }

    // The slot has capacity for the value.
    #[inline(always)]
    pub(crate) fn put(
        &mut self,
        slot: &mut JsonValue<'static>,
        level: usize,
        value: JsonValue<'static>,
    )
        requires { HasRoomAt level slot.old }
        ensures put { IsPut level (view slot.old) (text_view self.old.key) (view value.entry) (view slot.new) }
        ensures is { self.new ≡ record self.old {
          token = kind.Nothing;
          awaits = after_level level;
          key = self.new.key;
        } }
    {
        put_in(slot, level, &mut self.key, value);
        self.token = Token::Nothing;
        self.awaits = after_part(level);
    }

    #[inline(always)]
    pub(crate) fn end_container(&mut self)
        requires { 0 < self.old.depth }
        ensures { self.new ≡ record self.old {
          depth = self.old.depth - 1;
          awaits = after_level (self.old.depth - 1);
        } }
    {
        self.depth -= 1;
        self.awaits = after_part(self.depth);
    }

    // Takes bytes of the chunk and returns how many: none only where a container ends before one. `Err` takes none.
    #[inline(always)]
    fn step(
        &mut self,
        slot: &mut JsonValue<'static>,
        level: usize,
        chunk: &[u8],
    ) -> Result<usize, AllocFailed>
        requires ready { Ready level chunk.now self.old (view slot.old) }
        requires here { self.old.depth ≡ level }
        requires hidden { self.old.shown ≡ false }
        requires room { KeepsRoom level self.old slot.old }
        requires inside { self.old.at < length chunk.now }
        ensures steps { IfOk result (λ n. Steps level chunk.now self.old (view slot.old) self.new (view slot.new) n) }
        ensures stays { OnErr result (ReadsAsBefore level chunk.now self.old (view slot.old) self.new (view slot.new)) }
        ensures wanted { OnErr result (Refuses level chunk.now self.old (view slot.old) self.new) }
        ensures calm { ¬ (self.new.depth ≡ level) → self.new.fault ≡ None }
        ensures room { KeepsRoom level self.new slot.new }
    {
        if self.is_over() {
            return Ok(chunk.len() - self.at);
        }
        match self.token {
            Token::Nothing => self.next(slot, level, chunk),
            _ => self.token(slot, level, chunk),
        }
    }

    #[inline(always)]
    fn part(
        &mut self,
        slot: &mut JsonValue<'static>,
        level: usize,
        chunk: &[u8],
    ) -> Result<(), AllocFailed>
        requires ready { Ready level chunk.now self.old (view slot.old) }
        requires here { self.old.depth ≡ level }
        requires paused { IsPaused level self.old slot.old }
        requires inside { self.old.at < length chunk.now }
        ensures went { Advanced level chunk.now self.old (view slot.old) self.new (view slot.new) }
        ensures wanted { OnErr result (Refuses level chunk.now self.old (view slot.old) self.new) }
        ensures calm { ¬ (self.new.depth ≡ level) → self.new.fault ≡ None }
        ensures paused { IsPaused level self.new slot.new }
        ensures near { OnOk result (self.new.depth ≤ level + 1) }
        ensures progress { OnOk result ((self.old.at < self.new.at) ⊎ (self.new.depth < level)) }
    {
        let count = self.step(slot, level, chunk)?;
        self.at += count;
        Ok(())
    }

    // Goes on in the last item or member of a container. The root at level 0 is the outermost container at level 1.
    #[cycle(read)]
    fn inside(
        &mut self,
        slot: &mut JsonValue<'static>,
        level: usize,
        chunk: &[u8],
    ) -> Result<(), AllocFailed>
        requires ready { Ready level chunk.now self.old (view slot.old) }
        requires deeper { level < self.old.depth }
        requires unset { self.old.fault ≡ None }
        requires complete { IsComplete self.old }
        requires inside { self.old.at < length chunk.now }
        requires part { 0 < level → HasPart (view slot.old) }
        ensures went { Advanced level chunk.now self.old (view slot.old) self.new (view slot.new) }
        ensures wanted { OnErr result (Refuses level chunk.now self.old (view slot.old) self.new) }
        ensures paused { IsPaused level self.new slot.new }
        ensures depth { level ≤ self.new.depth }
        ensures all { OnOk result (level < self.new.depth → self.new.at ≡ length chunk.now) }
        ensures calm { OnOk result (self.new.at < length chunk.now → self.new.fault ≡ None) }
    {
        if level == 0 {
            return self.parts(slot, 1, chunk);
        }
        match slot {
            JsonValue::Array(items) => {
                let last = items.len() - 1;
                self.parts(&mut items[last], level + 1, chunk)
            }
            JsonValue::Object(members) => {
                let last = members.len() - 1;
                self.parts(&mut members[last].1, level + 1, chunk)
            }
            _ => unreachable!(),
        }
    }

    // Reads on in this container and those inside it, up to its end or the chunk's.
    #[cycle(read)]
    fn read_on(
        &mut self,
        slot: &mut JsonValue<'static>,
        level: usize,
        chunk: &[u8],
    ) -> Result<(), AllocFailed>
        requires ready { Ready level chunk.now self.old (view slot.old) }
        requires unset { self.old.fault ≡ None }
        requires paused { IsPaused level self.old slot.old }
        ensures went { Advanced level chunk.now self.old (view slot.old) self.new (view slot.new) }
        ensures wanted { OnErr result (Refuses level chunk.now self.old (view slot.old) self.new) }
        ensures paused { IsPaused level self.new slot.new }
        ensures all { OnOk result (level ≤ self.new.depth → self.new.at ≡ length chunk.now) }
        ensures calm { OnOk result (self.new.at < length chunk.now → self.new.fault ≡ None) }
    {
        while self.at < chunk.len() && level <= self.depth {
            if level < self.depth {
                self.inside(slot, level, chunk)?;
            } else {
                self.part(slot, level, chunk)?;
            }
        }
        Ok(())
    }

    // The unfinished token is taken out of the innermost slot before the first byte, and stored there after the last.
    #[cycle(read)]
    fn parts(
        &mut self,
        slot: &mut JsonValue<'static>,
        level: usize,
        chunk: &[u8],
    ) -> Result<(), AllocFailed>
        requires ready { Ready level chunk.now self.old (view slot.old) }
        requires unset { self.old.fault ≡ None }
        requires complete { IsComplete self.old }
        requires inside { self.old.at < length chunk.now }
        ensures went { Advanced level chunk.now self.old (view slot.old) self.new (view slot.new) }
        ensures wanted { OnErr result (Refuses level chunk.now self.old (view slot.old) self.new) }
        ensures complete { IsComplete self.new }
        ensures ended { self.new.depth < level → HasEnded self.new }
        ensures all { OnOk result (level ≤ self.new.depth → self.new.at ≡ length chunk.now) }
        ensures calm { OnOk result (self.new.at < length chunk.now → self.new.fault ≡ None) }
    {
        self.hide(slot, level)?;
        let read = self.read_on(slot, level, chunk);
        self.show(slot, level);
        read
    }

    // Goes on in the innermost container alone, up to its end or the chunk's.
    fn innermost(
        &mut self,
        slot: &mut JsonValue<'static>,
        level: usize,
        chunk: &[u8],
    ) -> Result<(), AllocFailed>
        requires ready { Ready level chunk.now self.old (view slot.old) }
        requires some { 0 < level }
        requires unset { self.old.fault ≡ None }
        requires complete { IsComplete self.old }
        requires inside { self.old.at < length chunk.now }
        ensures went { Advanced level chunk.now self.old (view slot.old) self.new (view slot.new) }
        ensures wanted { OnErr result (Refuses level chunk.now self.old (view slot.old) self.new) }
        ensures complete { IsComplete self.new }
        ensures calm { OnOk result (self.new.at < length chunk.now → self.new.fault ≡ None) }
    {
        if level == self.depth {
            return self.parts(slot, level, chunk);
        }
        match slot {
            JsonValue::Array(items) => {
                let last = items.len() - 1;
                self.innermost(&mut items[last], level + 1, chunk)
            }
            JsonValue::Object(members) => {
                let last = members.len() - 1;
                self.innermost(&mut members[last].1, level + 1, chunk)
            }
            _ => unreachable!(),
        }
    }

    // Most chunks end in the innermost container. So it is read first, without a way back through those that it is in.
    fn go_on(&mut self, root: &mut JsonValue<'static>, chunk: &[u8]) -> Result<(), AllocFailed>
        requires ready { Ready 0 chunk.now self.old (view root.old) }
        requires unset { self.old.fault ≡ None }
        requires complete { IsComplete self.old }
        requires inside { self.old.at < length chunk.now }
        ensures went { Advanced 0 chunk.now self.old (view root.old) self.new (view root.new) }
        ensures wanted { OnErr result (Refuses 0 chunk.now self.old (view root.old) self.new) }
        ensures complete { IsComplete self.new }
        ensures all { OnOk result (self.new.at ≡ length chunk.now) }
    {
        if self.depth == 0 {
            return self.parts(root, 0, chunk);
        }
        self.innermost(root, 1, chunk)?;
        if self.at == chunk.len() {
            return Ok(());
        }
        self.parts(root, 0, chunk)
    }

    /// Counts the bytes that were taken of a chunk.
    pub fn leave_chunk(&mut self)
        requires { self.old.base + self.old.at < 2 ^ 64 }
        ensures { self.new ≡ record self.old { base = self.old.base + self.old.at; at = 0 } }
    {
        self.base += self.at;
        self.at = 0;
    }

    /// Takes a chunk. If an allocation fails, the position counts the bytes taken; the rest can be pushed again.
    pub fn read(&mut self, root: &mut JsonValue<'static>, chunk: &[u8]) -> Result<(), AllocFailed>
        requires arrived { (t : List ℕ) × HasArrived (document self.old (view root.old)) t }
        requires start { self.old.at ≡ 0 }
        requires low { self.old.depth ≤ nesting_limit + 1 }
        requires room { self.old.base + length chunk.now < 2 ^ 64 }
        ensures low { self.new.depth ≤ nesting_limit + 1 }
        ensures taken { (t : List ℕ) → HasArrived (document self.old (view root.old)) t
            → OnOk result (HasArrived (document self.new (view root.new)) (t ++ chunk.now)) }
        ensures refused { (t : List ℕ) → HasArrived (document self.old (view root.old)) t
            → OnErr result (HasArrived (document self.new (view root.new)) (t ++ take self.new.at chunk.now)) }
        ensures wanted { (t : List ℕ) → HasArrived (document self.old (view root.old)) t
            → OnErr result (MayRefuseAt (t ++ chunk.now) (self.new.base + self.new.at)) }
        ensures all { OnOk result (self.new.at ≡ length chunk.now) }
        ensures within { self.new.at ≤ length chunk.now }
        ensures same { (self.new.settings ≡ self.old.settings) × (self.new.base ≡ self.old.base) }
    {
        if chunk.is_empty() {
            return Ok(());
        }
        if self.fault.is_some() {
            self.at = chunk.len();
            return Ok(());
        }
        self.go_on(root, chunk)
    }
}
