//! Takes what stands between the tokens: whitespace, commas, colons and closing brackets (RFC 8259, 2, 4 and 5).
ghost use Rattle.std.specs.Prelude.{◌≡◌, ◌+◌, ◌^◌, ◌<◌, ◌++◌, ◌∷◌, [], IfOk, List, None, OnErr, false, slice_index, ℕ};
ghost use Rattle.std.specs.Prelude.{true};
ghost use Rattle.jiter_incremental.specs.Words.{Arrived, IsLeft, IsAfter, IsBeforePart, HasTakenIn, StandsAt, IsHere};
ghost use Rattle.jiter_incremental.specs.Words.{any_bytes, IsStill, KeepsRoom, ReadsAsBefore, Steps, document, comma};
ghost use Rattle.jiter_incremental.specs.Words.{is_blank, begins_part, closer_of, Tree, PartTree, built, view};
ghost use Rattle.jiter_incremental.specs.declared.reader.Awaits.TheVariants as awaited;
ghost use Rattle.jiter_incremental.specs.declared.reader.Token.TheVariants as kind;

use crate::reader::{Awaits, Reader};
use crate::slot::kind_of;
use jiter_scan::errors::FaultKind;
use jiter_scan::memory::AllocFailed;
use jiter_steps::parse::ContainerKind;
use jiter_steps::whitespace::past_blanks;
use jiter_value::value::JsonValue;

// Whitespace (RFC 8259, 2).
#[inline(always)]
pub(crate) fn is_blank(byte: u8) -> bool
    ensures { result ≡ is_blank byte }
{
    matches!(byte, b' ' | b'\t' | b'\n' | b'\r')
}

#[inline(always)]
fn is_first(awaits: Awaits) -> bool
    ensures first { result ≡ true → awaits ≡ awaited.First }
    ensures other { result ≡ false → ¬ (awaits ≡ awaited.First) }
{
    matches!(awaits, Awaits::First)
}

impl Reader {
    // A partial mode reads nothing after the value, so such a byte is an error only with partial reading off.
    fn trail(&mut self)
        requires unset { self.old.fault ≡ None }
        requires room { self.old.base + self.old.at < 2 ^ 64 }
        ensures taken { (c : ℕ) → (t : List ℕ) → (v : Tree) → (s : Arrived) → StandsAt c (document self.old v) t s
            → IsLeft (document self.old v).value s → self.old.awaits ≡ awaited.Nothing → is_blank c ≡ false
            → HasTakenIn any_bytes (document self.new v) (t ++ c ∷ []) }
        ensures still { IsStill self.old self.new }
        ensures same { (self.new.depth ≡ self.old.depth) × (self.new.token ≡ self.old.token) }
    {
        let kind = FaultKind::TrailingCharacters;
        if self.settings.mode.is_active() {
            self.note(kind, self.position());
            return;
        }
        self.refuse(kind, self.position());
    }

    // A comma or a closing bracket is missing before the byte. A partial mode ends the container there: `[1 x` is
    // `[1]`. The byte isn't taken: it may end or continue a container outside, or come after the value.
    #[inline(never)]
    fn close_before(&mut self, slot: &JsonValue<'static>, level: usize, chunk: &[u8]) -> usize
        requires here { IsHere level chunk.now self.old (view slot.now) }
        requires token { self.old.token ≡ kind.Nothing }
        requires comma { self.old.awaits ≡ awaited.Comma }
        requires missing { (h : ContainerKind) → (xs : List (PartTree h)) → view slot.now ≡ built h xs
            → ¬ (slice_index chunk.now self.old.at ≡ closer_of h) }
        requires none { ¬ (slice_index chunk.now self.old.at ≡ comma) }
        requires other { is_blank (slice_index chunk.now self.old.at) ≡ false }
        ensures steps { Steps level chunk.now self.old (view slot.now) self.new (view slot.now) result }
        ensures token { self.new.token ≡ kind.Nothing }
    {
        let kind = kind_of(slot).comma_kind();
        if !self.settings.mode.is_active() {
            self.refuse(kind, self.position());
            return 1;
        }
        self.note(kind, self.position());
        self.end_container();
        0
    }

    /// Takes the byte after a value, or ends the container before it. Returns how many bytes it took.
    #[inline(always)]
    pub fn after(&mut self, slot: &JsonValue<'static>, level: usize, chunk: &[u8]) -> usize
        requires here { IsHere level chunk.now self.old (view slot.now) }
        requires token { self.old.token ≡ kind.Nothing }
        requires after { IsAfter self.old.awaits }
        requires other { is_blank (slice_index chunk.now self.old.at) ≡ false }
        ensures steps { Steps level chunk.now self.old (view slot.now) self.new (view slot.now) result }
        ensures token { self.new.token ≡ kind.Nothing }
    {
        if level == 0 {
            self.trail();
            return 1;
        }
        let byte = chunk[self.at];
        if byte == b',' {
            self.awaits = Awaits::Next;
            return 1;
        }
        let closer = kind_of(slot).closer();
        if byte == closer {
            self.end_container();
            return 1;
        }
        self.close_before(slot, level, chunk)
    }

    #[inline(always)]
    fn colon(&mut self, slot: &JsonValue<'static>, level: usize, chunk: &[u8]) -> usize
        requires here { IsHere level chunk.now self.old (view slot.now) }
        requires token { self.old.token ≡ kind.Nothing }
        requires awaits { self.old.awaits ≡ awaited.Colon }
        requires other { is_blank (slice_index chunk.now self.old.at) ≡ false }
        ensures steps { Steps level chunk.now self.old (view slot.now) self.new (view slot.now) result }
        ensures token { self.new.token ≡ kind.Nothing }
    {
        let byte = chunk[self.at];
        if byte != b':' {
            self.refuse(FaultKind::ExpectedColon, self.position());
            return 1;
        }
        self.awaits = Awaits::Value;
        1
    }

    // The byte is a closing bracket, or an error, where an item or member may begin.
    #[inline(always)]
    fn no_part(&mut self, slot: &JsonValue<'static>, level: usize, chunk: &[u8]) -> usize
        requires here { IsHere level chunk.now self.old (view slot.now) }
        requires token { self.old.token ≡ kind.Nothing }
        requires before { IsBeforePart self.old.awaits }
        requires none { (h : ContainerKind) → (xs : List (PartTree h)) → view slot.now ≡ built h xs
            → begins_part h (slice_index chunk.now self.old.at) ≡ false }
        requires other { is_blank (slice_index chunk.now self.old.at) ≡ false }
        ensures steps { Steps level chunk.now self.old (view slot.now) self.new (view slot.now) result }
        ensures token { self.new.token ≡ kind.Nothing }
    {
        let byte = chunk[self.at];
        let closer = kind_of(slot).closer();
        if byte != closer {
            self.refuse(FaultKind::KeyMustBeAString, self.position());
            return 1;
        }
        if is_first(self.awaits) {
            self.end_container();
            return 1;
        }
        self.refuse(FaultKind::TrailingComma, self.position());
        1
    }

    // The byte is where an item or member may begin.
    #[inline(always)]
    fn between(
        &mut self,
        slot: &mut JsonValue<'static>,
        level: usize,
        chunk: &[u8],
    ) -> Result<usize, AllocFailed>
        requires here { IsHere level chunk.now self.old (view slot.old) }
        requires token { self.old.token ≡ kind.Nothing }
        requires before { IsBeforePart self.old.awaits }
        requires other { is_blank (slice_index chunk.now self.old.at) ≡ false }
        ensures steps { IfOk result (λ n. Steps level chunk.now self.old (view slot.old) self.new (view slot.new) n) }
        ensures stays { OnErr result (ReadsAsBefore level chunk.now self.old (view slot.old) self.new (view slot.new)) }
        ensures room { KeepsRoom level self.new slot.new }
    {
        let kind = kind_of(slot);
        if !kind.begins_part(chunk[self.at]) {
            return Ok(self.no_part(slot, level, chunk));
        }
        match kind {
            ContainerKind::Array => self.value(slot, level, chunk),
            ContainerKind::Object => self.key(slot, level, chunk),
        }
    }

    // Takes whitespace, or what begins with the next byte. No token is unfinished.
    #[inline(always)]
    pub(crate) fn next(
        &mut self,
        slot: &mut JsonValue<'static>,
        level: usize,
        chunk: &[u8],
    ) -> Result<usize, AllocFailed>
        requires here { IsHere level chunk.now self.old (view slot.old) }
        requires token { self.old.token ≡ kind.Nothing }
        ensures steps { IfOk result (λ n. Steps level chunk.now self.old (view slot.old) self.new (view slot.new) n) }
        ensures stays { OnErr result (ReadsAsBefore level chunk.now self.old (view slot.old) self.new (view slot.new)) }
        ensures room { KeepsRoom level self.new slot.new }
        ensures wanted { OnErr result (is_blank (slice_index chunk.now self.old.at) ≡ false) }
    {
        let end = past_blanks(chunk, self.at);
        if self.at < end {
            return Ok(end - self.at);
        }
        match self.awaits {
            Awaits::Value => self.value(slot, level, chunk),
            Awaits::Colon => Ok(self.colon(slot, level, chunk)),
            Awaits::First | Awaits::Next => self.between(slot, level, chunk),
            _ => Ok(self.after(slot, level, chunk)),
        }
    }
}
