//! Whether a truncated document is read, and how.
ghost use Rattle.std.specs.Prelude.{◌≡◌, true};
ghost use Rattle.jiter_scan.specs.PartialMode.{is_active, allows_trailing_strings, mode_from};

/// Says whether a truncated document is an error, or gives the value so far.
///
/// In a partial mode (`On` or `TrailingStrings`), a container ends where the input ends. It also ends where a value is
/// followed by neither a comma nor the closing bracket. Bytes after the value are not read. All other errors are
/// reported.
///
/// Inside a container these are left out: a truncated literal, a key without its value, and a number that isn't one yet
/// (`12.`).
#[derive(Debug, Clone, Copy, PartialEq, Eq)]
pub enum PartialMode {
    /// A truncated document is an error.
    Off,
    /// An unterminated string inside a container is left out; at the top level it is an error.
    On,
    /// As `On`, but an unterminated string value is kept. A string value, closed or not, loses an incomplete character
    /// at its end.
    TrailingStrings,
}

impl Default for PartialMode {
    ghost use Rattle.jiter_scan.specs.declared.partial_mode.PartialMode.TheVariants.{Off};

    ghost is_default = { λ m. m ≡ Off };

    fn default() -> PartialMode {
        PartialMode::Off
    }
}

impl From<bool> for PartialMode {
    ghost use Rattle.jiter_scan.specs.PartialMode.{mode_from};

    ghost from_gives = { λ on m. m ≡ mode_from on };

    fn from(mode: bool) -> PartialMode {
        if mode {
            PartialMode::On
        } else {
            PartialMode::Off
        }
    }
}

impl PartialMode {
    /// Returns whether this is a partial mode.
    pub fn is_active(self) -> bool
        ensures { result ≡ is_active self }
    {
        !matches!(self, Self::Off)
    }

    /// Returns whether an unterminated string value is kept.
    pub fn allow_trailing_str(self) -> bool
        ensures { result ≡ allows_trailing_strings self }
    {
        matches!(self, Self::TrailingStrings)
    }
}
