//! Equality of values, whether their strings, keys and number texts are borrowed or owned.
ghost use Rattle.std.specs.Prelude.{◌≡◌, true, map, Some, Decides};
ghost use Rattle.jiter_value.specs.Words.{on_per, on_equiv, partial_equiv_from_equiv, nat_list_eq_equiv};
ghost use Rattle.jiter_value.specs.Words.{text_view, Tree, boolean_in, int_in, string_in, code, same_content};
ghost use Rattle.jiter_value.specs.Words.{owned_text, owned_tree, owned_member, HoldSame, member_view, view};

use crate::value::{JsonArray, JsonObject, JsonValue};
use std::borrow::CowStr;

impl<'s> PartialEq for JsonValue<'s> {
    ghost eq = { λ v w. same_content (view v) (view w) };

    ghost laws = { on_per (λ v. code (view v)) (partial_equiv_from_equiv nat_list_eq_equiv) };

    /// Returns whether two values hold the same, borrowed or owned.
    ///
    /// A `BigInt` or a `Float` is compared by its text, so `1.0` isn't equal to `1.00`. Members are compared in order.
    fn eq(&self, other: &Self) -> bool
        ensures value { result ≡ same_content (view self.now) (view other.now) }
        ensures decided { Decides result (HoldSame (view self.now) (view other.now)) }
    {
        same_values(self, other)
    }
}

impl<'s> Eq for JsonValue<'s> {
    ghost laws = { on_equiv (λ v. code (view v)) nat_list_eq_equiv };
}

impl<'s> JsonValue<'s> {
    /// Returns whether the value is a string with exactly these characters.
    ///
    /// Borrowed and owned strings compare alike, and escapes are compared decoded. Both sides of `==` have one type
    /// here, so this stands for `value == "text"`.
    ///
    /// # Examples
    ///
    /// ```rust
    /// let value = JsonValue::parse(alloc, br#""a\u0062""#, false)?;
    /// assert!(rt; value.eq_str("ab"));
    /// ```
    pub fn eq_str(&self, text: &str) -> bool
        ensures { Decides result (string_in (view self.now) ≡ Some text.now) }
    {
        match self {
            JsonValue::Str(own) => own.as_str() == text,
            _ => false,
        }
    }

    /// Returns whether the value is an `Int` with this integer. Stands for `value == 5`.
    ///
    /// A `BigInt` or a `Float` never is: `5.0` and `5e0` are a `Float`.
    pub fn eq_i64(&self, integer: i64) -> bool
        ensures { Decides result (int_in (view self.now) ≡ Some integer) }
    {
        match self {
            JsonValue::Int(own) => *own == integer,
            _ => false,
        }
    }

    /// Returns whether the value is this `bool`. Stands for `value == true`.
    pub fn eq_bool(&self, truth: bool) -> bool
        ensures { Decides result (boolean_in (view self.now) ≡ Some truth) }
    {
        match self {
            JsonValue::Bool(own) => *own == truth,
            _ => false,
        }
    }
}

/// Adds to your proof that equality is reflexive, symmetric and transitive.
///
/// Does nothing at run time.
pub fn equality_is_an_equivalence()
    ensures reflexive { (v : Tree) → same_content v v ≡ true }
    ensures symmetric { (v w : Tree) → same_content v w ≡ same_content w v }
    ensures transitive { (v w x : Tree) → same_content v w ≡ true → same_content w x ≡ true
        → same_content v x ≡ true }
{}

#[cycle(same)]
fn same_values(one: &JsonValue<'_>, other: &JsonValue<'_>) -> bool
    ensures { Decides result (HoldSame (view one.now) (view other.now)) }
{
    match (one, other) {
        (JsonValue::Null, JsonValue::Null) => true,
        (JsonValue::Bool(a), JsonValue::Bool(b)) => *a == *b,
        (JsonValue::Int(a), JsonValue::Int(b)) => *a == *b,
        (JsonValue::BigInt(a), JsonValue::BigInt(b)) => same_texts(a, b),
        (JsonValue::Float(a), JsonValue::Float(b)) => same_texts(a, b),
        (JsonValue::Str(a), JsonValue::Str(b)) => same_texts(a, b),
        (JsonValue::Array(a), JsonValue::Array(b)) => same_items(a, b),
        (JsonValue::Object(a), JsonValue::Object(b)) => same_members(a, b),
        _ => false,
    }
}

#[cycle(same)]
fn same_items(one: &JsonArray<'_>, other: &JsonArray<'_>) -> bool
    ensures { Decides result (map owned_tree (map view one.now.items)
        ≡ map owned_tree (map view other.now.items)) }
{
    if one.len() != other.len() {
        return false;
    }
    for i in 0..one.len() {
        if !same_values(&one[i], &other[i]) {
            return false;
        }
    }
    true
}

#[cycle(same)]
fn same_members(one: &JsonObject<'_>, other: &JsonObject<'_>) -> bool
    ensures { Decides result (map owned_member (map member_view one.now.items)
        ≡ map owned_member (map member_view other.now.items)) }
{
    if one.len() != other.len() {
        return false;
    }
    for i in 0..one.len() {
        let member = &one[i];
        let mate = &other[i];
        if !same_texts(&member.0, &mate.0) {
            return false;
        }
        if !same_values(&member.1, &mate.1) {
            return false;
        }
    }
    true
}

fn same_texts(one: &CowStr<'_>, other: &CowStr<'_>) -> bool
    ensures { Decides result (owned_text (text_view one.now) ≡ owned_text (text_view other.now)) }
{
    one.as_str() == other.as_str()
}
