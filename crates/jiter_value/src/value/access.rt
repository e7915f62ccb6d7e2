//! Access to the parts of a value. Nothing is copied or allocated.
ghost use Rattle.std.specs.Prelude.{◌≡◌, IfOk, IfErr, None, option_map, bytes_eq};
ghost use Rattle.jiter_value.specs.Words.{text_view, array, object, string, is_null_tree, boolean_in, int_in};
ghost use Rattle.jiter_value.specs.Words.{number_text_in, string_in, items_in, members_in, item_at, item_of};
ghost use Rattle.jiter_value.specs.Words.{member_named, last_such, view, views, member_views};

use crate::value::{JsonArray, JsonObject, JsonValue};
use std::borrow::CowStr;
use std::mem;

impl<'s> JsonValue<'s> {
    /// Returns whether the value is `null`.
    pub fn is_null(&self) -> bool
        ensures { result ≡ is_null_tree (view self.now) }
    {
        matches!(self, JsonValue::Null)
    }

    /// Returns `true` or `false` as a `bool`, or `None` for any other value.
    pub fn as_bool(&self) -> Option<bool>
        ensures { result ≡ boolean_in (view self.now) }
    {
        match self {
            JsonValue::Bool(truth) => Some(*truth),
            _ => None,
        }
    }

    /// Returns the integer of an `Int`, or `None` for any other value, including a `BigInt` or a `Float`.
    pub fn as_i64(&self) -> Option<i64>
        ensures { result ≡ int_in (view self.now) }
    {
        match self {
            JsonValue::Int(integer) => Some(*integer),
            _ => None,
        }
    }

    /// Returns the source text of a `BigInt` or a `Float`, or `None` for any other value, including an `Int`.
    pub fn as_number_text(&self) -> Option<&str>
        ensures { option_map (λ text. text.now) result ≡ number_text_in (view self.now) }
    {
        match self {
            JsonValue::BigInt(text) => Some(text.as_str()),
            JsonValue::Float(text) => Some(text.as_str()),
            _ => None,
        }
    }

    /// Returns the decoded string, or `None` for any other value.
    pub fn as_str(&self) -> Option<&str>
        ensures { option_map (λ text. text.now) result ≡ string_in (view self.now) }
    {
        match self {
            JsonValue::Str(text) => Some(text.as_str()),
            _ => None,
        }
    }

    /// Returns the items of an array, or `None` for any other value.
    pub fn as_array(&self) -> Option<&JsonArray<'s>>
        ensures { option_map (λ items. views items.now.items) result ≡ items_in (view self.now) }
    {
        match self {
            JsonValue::Array(items) => Some(items),
            _ => None,
        }
    }

    /// Returns the members of an object in source order, or `None` for any other value.
    pub fn as_object(&self) -> Option<&JsonObject<'s>>
        ensures { option_map (λ members. member_views members.now.items) result
            ≡ members_in (view self.now) }
    {
        match self {
            JsonValue::Object(members) => Some(members),
            _ => None,
        }
    }

    /// Moves the items out of an array.
    ///
    /// # Errors
    ///
    /// Returns the value itself, unchanged, if it isn't an array.
    pub fn into_array(self) -> Result<JsonArray<'s>, JsonValue<'s>>
        ensures items { IfOk result (λ items. view self.entry ≡ array (views items.items)) }
        ensures other { IfErr result (λ v. (v ≡ self.entry) × (items_in (view v) ≡ None)) }
    {
        let mut value = self;
        if let JsonValue::Array(items) = &mut value {
            let alloc = *items.allocator();
            return Ok(mem::replace(items, Vec::new(alloc)));
        }
        Err(value)
    }

    /// Moves the members out of an object, in source order.
    ///
    /// # Errors
    ///
    /// Returns the value itself, unchanged, if it isn't an object.
    pub fn into_object(self) -> Result<JsonObject<'s>, JsonValue<'s>>
        ensures members { IfOk result (λ members. view self.entry ≡ object (member_views members.items)) }
        ensures other { IfErr result (λ v. (v ≡ self.entry) × (members_in (view v) ≡ None)) }
    {
        let mut value = self;
        if let JsonValue::Object(members) = &mut value {
            let alloc = *members.allocator();
            return Ok(mem::replace(members, Vec::new(alloc)));
        }
        Err(value)
    }

    /// Moves the decoded string out of a value, borrowed or owned as it was.
    ///
    /// # Errors
    ///
    /// Returns the value itself, unchanged, if it isn't a string.
    pub fn into_str(self) -> Result<CowStr<'s>, JsonValue<'s>>
        ensures text { IfOk result (λ text. view self.entry ≡ string (text_view text)) }
        ensures other { IfErr result (λ v. (v ≡ self.entry) × (string_in (view v) ≡ None)) }
    {
        let mut value = self;
        if let JsonValue::Str(text) = &mut value {
            return Ok(mem::replace(text, CowStr::Borrowed("")));
        }
        Err(value)
    }

    /// Returns the item at an index, from 0, or `None` past the last item or if the value isn't an array.
    pub fn at(&self, index: usize) -> Option<&JsonValue<'s>>
        ensures { option_map (λ v. view v.now) result ≡ item_at index (view self.now) }
    {
        match self {
            JsonValue::Array(items) => item_at(items, index),
            _ => None,
        }
    }

    /// Returns the value of the last member with this key, or `None` if there is none or the value isn't an object.
    ///
    /// `name` is compared with the decoded keys.
    ///
    /// # Examples
    ///
    /// ```rust
    /// let value = JsonValue::parse(alloc, br#"{"port": 80, "port": 8080}"#, false)?;
    /// assert_eq!(rt; value.get("port").and_then(|port| port.as_i64()), Some(8080));
    /// ```
    pub fn get(&self, name: &str) -> Option<&JsonValue<'s>>
        ensures { option_map (λ v. view v.now) result ≡ member_named name.now (view self.now) }
    {
        match self {
            JsonValue::Object(members) => last_named(members, name),
            _ => None,
        }
    }
}

/// Returns the item at an index, or `None` past the last item.
#[tactic(auto, using(crate::proofs::Looking::item_found, crate::proofs::Looking::item_missing))]
pub(crate) fn item_at<'v, 's>(items: &'v JsonArray<'s>, index: usize) -> Option<&'v JsonValue<'s>>
    ensures { option_map (λ v. view v.now) result ≡ item_of index (views items.now.items) }
{
    if index < items.len() {
        Some(&items[index])
    } else {
        None
    }
}

#[tactic(auto, using(crate::proofs::Looking::last_such_more))]
fn last_named<'v, 's>(members: &'v JsonObject<'s>, name: &str) -> Option<&'v JsonValue<'s>>
    ensures { option_map (λ v. view v.now) result
        ≡ last_such (λ key. bytes_eq key name.now) None (member_views members.now.items) }
{
    let mut rest = members.len();
    while rest > 0 {
        rest -= 1;
        let member = &members[rest];
        if member.0.as_str() == name {
            return Some(&member.1);
        }
    }
    None
}
