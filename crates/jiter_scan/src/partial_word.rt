//! Words such as `true`, read byte by byte (RFC 8259, 3).
ghost use Rattle.std.specs.Prelude.{◌≡◌, ◌+◌, ◌<◌, List, None, Some, length, slice_get, ℕ};
ghost use Rattle.jiter_scan.specs.Words.{eof_value, failed, word_by, word_from};

/// What a byte is to a word.
#[derive(Clone, Copy, Debug, PartialEq, Eq)]
pub enum WordStep {
    /// The word's next byte, and not its last one.
    Part,
    /// The word's last byte. The word ends here, whatever the next byte is.
    Last,
    /// Any other byte.
    Other,
}

/// A word whose first byte was read, but not its last one.
#[derive(Clone, Copy, Debug, Drop)]
pub struct PartialWord {
    word: &'static [u8],
    seen: usize,
    ghost within: { seen < length word.now },
}

impl PartialWord {
    /// Returns the word with its first byte read.
    pub fn begun(word: &'static [u8]) -> PartialWord
        requires { 1 < length word.now }
        ensures word { result.word.now ≡ word.now }
        ensures seen { result.seen ≡ 1 }
    {
        PartialWord { word, seen: 1 }
    }

    /// Returns what the next byte is to the word. A `Part` counts as read.
    pub fn next(&mut self, byte: u8) -> WordStep
        ensures leads { (t : List ℕ) (j : ℕ) → slice_get t j ≡ Some byte
            → word_from self.old.word.now self.old.seen t j
            ≡ word_by self.old.word.now self.new.seen t j result }
        ensures word { self.new.word ≡ self.old.word }
    {
        if self.word[self.seen] != byte {
            return WordStep::Other;
        }
        if self.seen + 1 == self.word.len() {
            return WordStep::Last;
        }
        self.seen += 1;
        WordStep::Part
    }
}
