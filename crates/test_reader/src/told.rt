//! What the reader's calls return, in words.
use jiter::{JiterResult, JsonType, JsonValue, NumberAny, NumberInt, Peek};
use std::alloc::{AllocError, Global};
use test_support::told::text_of;

/// A call's answer in words, or its error.
pub type Told = Result<JiterResult<String>, AllocError>;

/// Tells a word that needs no value.
pub fn word(alloc: Global, word: &str) -> Told {
    Ok(Ok(String::from_str(alloc, word)?))
}

/// Tells that a call passed what it should pass.
pub fn passed(alloc: Global, reply: JiterResult<()>) -> Told {
    match reply {
        Ok(()) => word(alloc, "()"),
        Err(error) => Ok(Err(error)),
    }
}

/// Tells a truth value.
pub fn truth(alloc: Global, reply: JiterResult<bool>) -> Told {
    match reply {
        Ok(value) => word(alloc, if value { "true" } else { "false" }),
        Err(error) => Ok(Err(error)),
    }
}

/// Tells an integer.
pub fn int(alloc: Global, reply: JiterResult<NumberInt<'_>>) -> Told {
    match reply {
        Ok(NumberInt::Int(value)) => Ok(Ok(format!(in alloc; "{value}")?)),
        Ok(NumberInt::BigInt(digits)) => Ok(Ok(format!(in alloc; "big {digits}")?)),
        Err(error) => Ok(Err(error)),
    }
}

/// Tells a number.
pub fn number(alloc: Global, reply: JiterResult<NumberAny<'_>>) -> Told {
    match reply {
        Ok(NumberAny::Int(value)) => int(alloc, Ok(value)),
        Ok(NumberAny::Float(text)) => Ok(Ok(format!(in alloc; "float {text}")?)),
        Err(error) => Ok(Err(error)),
    }
}

/// Tells a string in quotes.
pub fn string(alloc: Global, reply: JiterResult<&str>) -> Told {
    match reply {
        Ok(text) => Ok(Ok(format!(in alloc; "'{text}'")?)),
        Err(error) => Ok(Err(error)),
    }
}

/// Tells bytes between angles, as a text where they are one.
pub fn bytes(alloc: Global, reply: JiterResult<&[u8]>) -> Told {
    match reply {
        Ok(bytes) => Ok(Ok(match std::str::from_utf8(bytes) {
            Ok(text) => format!(in alloc; "<{text}>")?,
            Err(_) => format!(in alloc; "<{bytes:?}>")?,
        })),
        Err(error) => Ok(Err(error)),
    }
}

/// Tells the first byte of the next item, if there is one.
pub fn item(alloc: Global, reply: JiterResult<Option<Peek>>) -> Told {
    match reply {
        Ok(Some(peek)) => Ok(Ok(format!(in alloc; "{peek:?}")?)),
        Ok(None) => word(alloc, "None"),
        Err(error) => Ok(Err(error)),
    }
}

/// Tells the next key, if there is one.
pub fn key(alloc: Global, reply: JiterResult<Option<&str>>) -> Told {
    match reply {
        Ok(Some(key)) => string(alloc, Ok(key)),
        Ok(None) => word(alloc, "None"),
        Err(error) => Ok(Err(error)),
    }
}

/// Tells the next key as it is written, if there is one.
pub fn raw_key(alloc: Global, reply: JiterResult<Option<&[u8]>>) -> Told {
    match reply {
        Ok(Some(key)) => bytes(alloc, Ok(key)),
        Ok(None) => word(alloc, "None"),
        Err(error) => Ok(Err(error)),
    }
}

/// Tells a value.
pub fn value(alloc: Global, reply: JiterResult<JsonValue<'_>>) -> Told {
    match reply {
        Ok(value) => Ok(Ok(text_of(alloc, &value)?)),
        Err(error) => Ok(Err(error)),
    }
}

/// Tells the types of values, with a width.
pub fn types(alloc: Global) -> Result<String, AllocError> {
    let scalars = [
        JsonType::Null,
        JsonType::Bool,
        JsonType::Int,
        JsonType::Float,
    ];
    let [null, truth, int, float] = &scalars;
    let [string, array, object] = &[JsonType::String, JsonType::Array, JsonType::Object];
    format!(in alloc; "{null:>9} {truth:>9} {int:>9} {float:>9} {string:>9} {array:>9} {object:>9}")
}
