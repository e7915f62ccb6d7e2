//! Two prefixes of one document, parsed in one call.
ghost use Rattle.std.specs.Prelude.{◌≡◌, ◌≤◌, ◌⊎◌, IfOk, IfErr, length, take, true};
ghost use Rattle.jiter.specs.Words.{is_active, IsBegunContainer, Extends, owned_tree, as_read, view, MayGrow};
ghost use Rattle.jiter.specs.Words.{ParsesPrefix, OneThenOther, IsCleanCut, PrefixesGrow};

use jiter_scan::{JsonError, JsonErrorType, PartialMode};
use jiter_value::JsonValue;
use std::alloc::Global;

/// Parses the first `shorter` bytes and then the first `longer` bytes, and returns both values (RFC 8259, 2).
///
/// Each prefix is parsed as by [`JsonValue::parse_with_config`].
///
/// In a partial mode, the second value extends the first if the bytes begin an array or object. Everything except the
/// last string and the containers that are still open stays the same. This holds if the shorter prefix has the first
/// bracket and does not end inside a number.
///
/// # Errors
///
/// - the error of the shorter prefix, or else that of the longer one, as `parse_with_config` returns it
/// - `OutOfMemory`, only if the value of a prefix is a non-empty container or a string with a backslash
///
/// # Requires
///
/// `shorter <= longer` and `longer <= bytes.len()`. `rt try` does not test it.
///
/// # Examples
///
/// ```rust
/// let mode = PartialMode::TrailingStrings;
/// let (first, second) = two_prefixes(alloc, br#"[1,"ab"]"#, 5, 6, false, mode)?;
/// assert_eq!(rt; first.at(1).and_then(|item| item.as_str()), Some("a"));
/// assert_eq!(rt; second.at(1).and_then(|item| item.as_str()), Some("ab"));
/// ```
pub fn two_prefixes<'j>(
    alloc: Global,
    bytes: &'j [u8],
    shorter: usize,
    longer: usize,
    allow_inf_nan: bool,
    mode: PartialMode,
) -> Result<(JsonValue<'j>, JsonValue<'j>), JsonError>
    requires ordered { shorter ≤ longer }
    requires within { longer ≤ length bytes.now }
    ensures answers { OneThenOther (ParsesPrefix allow_inf_nan mode bytes.now shorter)
        (ParsesPrefix allow_inf_nan mode bytes.now longer) result }
    ensures grows { is_active mode ≡ true
        → (f : IsBegunContainer allow_inf_nan (take longer bytes.now)) → IsCleanCut f.node shorter
        → IfOk result (λ p. Extends (view p.0) (view p.1)) }
    ensures memory { IfErr result (λ e. e.error_type ≡ JsonErrorType.OutOfMemory
        → MayGrow (take shorter bytes.now) ⊎ MayGrow (take longer bytes.now)) }
    ensures index { IfErr result (λ e. e.index ≤ longer) }
{
    let first = JsonValue::parse_with_config(alloc, &bytes[..shorter], allow_inf_nan, mode)?;
    let second = JsonValue::parse_with_config(alloc, &bytes[..longer], allow_inf_nan, mode)?;
    Ok((first, second))
}

/// Adds the law of growth to your proof, and does nothing at run time.
///
/// Call it if you parse two prefixes by calls of your own. In a partial mode, the value of a longer prefix of an array
/// or object extends that of a shorter one. It does so with borrowed and with owned strings. This holds if the shorter
/// prefix has the first bracket and does not end inside a number.
pub fn a_longer_prefix_extends_a_shorter()
    ensures borrowed { PrefixesGrow as_read }
    ensures owned { PrefixesGrow owned_tree }
{}
