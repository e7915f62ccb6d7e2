//! How each text that is read is stored: borrowed or owned. A text is a string, a key or the source of a number.
ghost use Rattle.std.specs.Prelude.{◌≡◌, ℕ, List, false, true, IfOk, OnErr};
ghost use Rattle.jiter_value.specs.Words.{text_view, owned_text, TextPolicy, each, borrowed, borrowed_unique, LieAt};
ghost use Rattle.jiter_value.specs.Words.{IsBorrowedAt};

use crate::value::copies::own_cow;
use jiter_scan::memory::AllocFailed;
use jiter_scan::text::utf8_text;
use std::alloc::Global;
use std::borrow::CowStr;

/// Decides how each text that is read is stored.
pub trait StringStorage<'s>: Copy {
    // It may be used with these bytes.
    ghost of: { Self → List ℕ → Type 0 };

    // What a text becomes, and whether duplicate keys are errors.
    ghost policy: { TextPolicy };

    // Keeping a text may allocate.
    ghost wants: { Type 0 };

    /// Returns a text of the bytes as the value keeps it. A borrowed text begins at `from`.
    fn store(self, bytes: &[u8], from: usize, text: CowStr<'_>) -> Result<CowStr<'s>, AllocFailed>
        requires of { of self bytes.now }
        requires borrowed { IsBorrowedAt bytes.now from (text_view text) }
        ensures value { IfOk result (λ kept. text_view kept ≡ policy.text (text_view text.entry)) }
        ensures memory { OnErr result wants };
}

/// Borrows each text without a backslash from the bytes.
#[derive(Clone, Copy)]
pub struct Borrowing<'s> {
    /// The bytes that are read.
    pub bytes: &'s [u8],
}

impl<'s> StringStorage<'s> for Borrowing<'s> {
    ghost of = { λ b t. b.bytes.now ≡ t };

    ghost policy = { borrowed };

    ghost wants = { ⊥ };

    #[inline(always)]
    fn store(
        self,
        _bytes: &[u8],
        from: usize,
        text: CowStr<'_>,
    ) -> Result<CowStr<'s>, AllocFailed> {
        match text {
            // Borrowed once more, for the lifetime of the value. Its UTF-8 isn't tested again.
            CowStr::Borrowed(borrowed) => {
                let again = utf8_text(&self.bytes[from..from + borrowed.len()]);
                Ok(CowStr::Borrowed(again))
            }
            CowStr::Owned(owned) => Ok(CowStr::Owned(owned)),
        }
    }
}

/// Borrows as [`Borrowing`] does, for a parse that rejects duplicate keys.
#[derive(Clone, Copy)]
pub struct BorrowingUnique<'s> {
    /// The bytes that are read.
    pub bytes: &'s [u8],
}

impl<'s> StringStorage<'s> for BorrowingUnique<'s> {
    ghost of = { λ b t. b.bytes.now ≡ t };

    ghost policy = { borrowed_unique };

    ghost wants = { ⊥ };

    #[inline(always)]
    fn store(self, bytes: &[u8], from: usize, text: CowStr<'_>) -> Result<CowStr<'s>, AllocFailed> {
        let lending = Borrowing { bytes: self.bytes };
        lending.store(bytes, from, text)
    }
}

/// Owns each text. A borrowed one is copied, by one allocation of its exact length.
#[derive(Clone, Copy)]
pub struct Owning {
    /// The allocator of the copies.
    pub alloc: Global,
}

impl<'s> StringStorage<'s> for Owning {
    ghost of = { λ o t. Unit {0} };

    ghost policy = { each owned_text };

    ghost wants = { Unit {0} };

    #[inline(always)]
    fn store(
        self,
        _bytes: &[u8],
        _from: usize,
        text: CowStr<'_>,
    ) -> Result<CowStr<'s>, AllocFailed> {
        own_cow(self.alloc, text)
    }
}

/// Returns the borrowed text that begins at `from` as the value keeps it.
///
/// # Errors
///
/// - a failed allocation, only if the text is copied
///
/// # Requires
///
/// `texts` is for these bytes. The text is in them from `from` on.
#[inline(always)]
pub fn store_borrowed<'s, T: StringStorage<'s>>(
    texts: T,
    bytes: &[u8],
    from: usize,
    text: &str,
) -> Result<CowStr<'s>, AllocFailed>
    requires of { T.of texts bytes.now }
    requires borrowed { LieAt bytes.now from text.now }
    ensures value { IfOk result (λ kept.
        text_view kept ≡ T.policy.text (record { owned = false; bytes = text.now })) }
    ensures memory { OnErr result T.wants }
{
    texts.store(bytes, from, CowStr::Borrowed(text))
}
