//! The program's arguments.
ghost use Rattle.std.specs.Prelude.{◌≡◌, map, string_bytes};
ghost use Rattle.look.specs.Words.{asked_of, mode_of, words_of};

use crate::words::Words;
use jiter::PartialMode;

/// Returns what the arguments ask for: a mode, then perhaps `inf-nan`, then perhaps `unique`. Returns `None` for any
/// other list.
pub fn words(list: &[String]) -> Option<Words>
    ensures { result ≡ words_of (map string_bytes list.now) }
{
    match list {
        [mode] => asked(mode.as_str(), false, false),
        [mode, name] if name.as_str() == "inf-nan" => asked(mode.as_str(), true, false),
        [mode, last] if last.as_str() == "unique" => asked(mode.as_str(), false, true),
        [mode, name, last] if name.as_str() == "inf-nan" && last.as_str() == "unique" => {
            asked(mode.as_str(), true, true)
        }
        _ => None,
    }
}

fn asked(mode: &str, inf_nan: bool, unique: bool) -> Option<Words>
    ensures { result ≡ asked_of inf_nan unique mode.now }
{
    Some(Words {
        mode: mode_named(mode)?,
        inf_nan,
        unique,
    })
}

fn mode_named(word: &str) -> Option<PartialMode>
    ensures { result ≡ mode_of word.now }
{
    match word {
        "off" => Some(PartialMode::Off),
        "on" => Some(PartialMode::On),
        "trailing-strings" => Some(PartialMode::TrailingStrings),
        _ => None,
    }
}
