//! The words after the program's name: a call and a mode.
use jiter::PartialMode;

/// A call that reads a whole text.
#[derive(Clone, Copy)]
pub enum Whole {
    /// `JsonValue::parse`
    Parse,
    /// `JsonValue::parse_with_config`
    Config,
    /// `JsonValue::parse_unique`
    Unique,
    /// A `Machine` through its turns.
    Turns,
    /// `JsonValue::parse_owned`
    Owned,
    /// `JsonValueScratch::parse`
    Scratch,
    /// `JsonValueScratch::parse_owned`
    OwnedByScratch,
    /// `two_prefixes`, each of them the whole text.
    TwoPrefixes,
    /// `two_prefixes`, one of them half the text and the other all of it.
    HalfPrefix,
}

/// A call that reads a whole value where a reader stands.
#[derive(Clone, Copy)]
pub enum Reading {
    /// `Jiter::next_value`
    Next,
    /// `Jiter::known_value`
    Known,
    /// `Jiter::next_value_owned`
    NextOwned,
    /// `Jiter::known_value_owned`
    KnownOwned,
    /// `value_by_steps`
    BySteps,
    /// `Jiter::next_skip`
    Skip,
}

/// A reader's walk through a document of one form.
#[derive(Clone, Copy)]
pub enum Steps {
    /// Calls that do not allocate.
    Plain,
    /// Those that return the bytes of keys and strings, and those that read one type.
    Raw,
    /// Those of a caller that has looked.
    Known,
    /// Calls that share a tape.
    KeptTape,
    /// `Jiter::with_tape` and `into_tape`, with three tapes.
    Tapes,
}

/// Calls in a row, over the lines or the chunks of the text.
#[derive(Clone, Copy)]
pub enum Repeated {
    /// `JsonValueScratch::parse` of each line.
    Lines,
    /// `JsonValueScratch::parse_owned` of each line.
    OwnedLines,
    /// `IncrementalParser::push` of each chunk of so many bytes, then `value`, `error` and `finish`.
    Chunks(usize),
    /// `parse_chunks`
    ParseChunks,
    /// `LineIndex::push` of each chunk, then `position`.
    LineIndex,
}

/// A call that copies a value, or describes an error or a position.
#[derive(Clone, Copy)]
pub enum Copying {
    /// `JsonValue::clone`
    Clone,
    /// `JsonValue::to_static`
    ToStatic,
    /// `JsonValue::into_static`
    IntoStatic,
    /// `JsonError::description`
    Describe,
    /// `JiterError::description`
    DescribeRefusal,
    /// `UniqueError::clone`
    CloneUnique,
    /// `UniqueError::description`
    DescribeUnique,
    /// `LinePosition::short`
    Short,
    /// `JsonValue::pointer`
    Pointer,
}

/// A document that is read into a struct, by a walk over its members or items.
#[derive(Clone, Copy)]
pub enum Walked {
    /// A `Config`.
    Config,
    /// A `Message`, which has a struct and lists in it.
    Message,
    /// A list of lists of strings.
    Lists,
    /// An `Event`, which has a tree in it.
    Event,
    /// A `Sample`, which does not allocate.
    Sample,
}

/// A call.
#[derive(Clone, Copy)]
pub enum Call {
    /// One that reads a whole text.
    Whole(Whole),
    /// One that reads a whole value where a reader stands.
    Reading(Reading),
    /// The text and key reads of a reader: those of a caller that has looked, or the others.
    Strings(bool),
    /// A reader's walk through a document of one form.
    Steps(Steps),
    /// Calls in a row.
    Repeated(Repeated),
    /// `read_document`, and `Value::read` of a reader.
    Walk(Walked),
    /// One that copies or tells.
    Copy(Copying),
    /// `IncrementalParser::push`, of pieces of so many bytes.
    Pieces(usize),
}

/// A call and the mode of its reading.
#[derive(Clone, Copy)]
pub struct Asked {
    /// The call.
    pub call: Call,
    /// How much of a cut document is read, by the calls that take a mode.
    pub mode: PartialMode,
}

/// What two words ask for; any other list asks for nothing.
pub fn read_words(list: &[String]) -> Option<Asked> {
    match list {
        [call, mode] => Some(Asked {
            call: call_named(call.as_str())?,
            mode: mode_named(mode.as_str())?,
        }),
        _ => None,
    }
}

fn call_named(word: &str) -> Option<Call> {
    match word {
        "parse" => Some(Call::Whole(Whole::Parse)),
        "config" => Some(Call::Whole(Whole::Config)),
        "unique" => Some(Call::Whole(Whole::Unique)),
        "turns" => Some(Call::Whole(Whole::Turns)),
        "owned" => Some(Call::Whole(Whole::Owned)),
        "scratch" => Some(Call::Whole(Whole::Scratch)),
        "scratch-owned" => Some(Call::Whole(Whole::OwnedByScratch)),
        "two-prefixes" => Some(Call::Whole(Whole::TwoPrefixes)),
        "half-prefix" => Some(Call::Whole(Whole::HalfPrefix)),
        "next-str" => Some(Call::Strings(false)),
        "known-str" => Some(Call::Strings(true)),
        "pieces" => Some(Call::Pieces(5)),
        "one-piece" => Some(Call::Pieces(usize::MAX)),
        "plain-walk" => Some(Call::Steps(Steps::Plain)),
        "raw-walk" => Some(Call::Steps(Steps::Raw)),
        "known-walk" => Some(Call::Steps(Steps::Known)),
        "kept-tape" => Some(Call::Steps(Steps::KeptTape)),
        "tapes" => Some(Call::Steps(Steps::Tapes)),
        _ => match (
            reading_named(word),
            repeated_named(word),
            walked_named(word),
        ) {
            (Some(reading), _, _) => Some(Call::Reading(reading)),
            (None, Some(repeated), _) => Some(Call::Repeated(repeated)),
            (None, None, Some(walked)) => Some(Call::Walk(walked)),
            (None, None, None) => Some(Call::Copy(copying_named(word)?)),
        },
    }
}

fn repeated_named(word: &str) -> Option<Repeated> {
    match word {
        "lines" => Some(Repeated::Lines),
        "lines-owned" => Some(Repeated::OwnedLines),
        "chunks" => Some(Repeated::Chunks(5)),
        "large-chunks" => Some(Repeated::Chunks(4096)),
        "parse-chunks" => Some(Repeated::ParseChunks),
        "line-index" => Some(Repeated::LineIndex),
        _ => None,
    }
}

fn walked_named(word: &str) -> Option<Walked> {
    match word {
        "walk-config" => Some(Walked::Config),
        "walk-message" => Some(Walked::Message),
        "walk-lists" => Some(Walked::Lists),
        "walk-event" => Some(Walked::Event),
        "walk-sample" => Some(Walked::Sample),
        _ => None,
    }
}

fn reading_named(word: &str) -> Option<Reading> {
    match word {
        "next-value" => Some(Reading::Next),
        "known-value" => Some(Reading::Known),
        "next-value-owned" => Some(Reading::NextOwned),
        "known-value-owned" => Some(Reading::KnownOwned),
        "value-by-steps" => Some(Reading::BySteps),
        "skip" => Some(Reading::Skip),
        _ => None,
    }
}

fn copying_named(word: &str) -> Option<Copying> {
    match word {
        "clone" => Some(Copying::Clone),
        "to-static" => Some(Copying::ToStatic),
        "into-static" => Some(Copying::IntoStatic),
        "description" => Some(Copying::Describe),
        "refusal-description" => Some(Copying::DescribeRefusal),
        "unique-clone" => Some(Copying::CloneUnique),
        "unique-description" => Some(Copying::DescribeUnique),
        "short" => Some(Copying::Short),
        "pointer" => Some(Copying::Pointer),
        _ => None,
    }
}

fn mode_named(word: &str) -> Option<PartialMode> {
    match word {
        "off" => Some(PartialMode::Off),
        "on" => Some(PartialMode::On),
        "trailing-strings" => Some(PartialMode::TrailingStrings),
        _ => None,
    }
}
