//! JSON Pointers into a value (RFC 6901). Nothing is copied or allocated.
ghost use Rattle.std.specs.Prelude.{◌≡◌, ◌≢◌, ◌↔◌, ◌^◌, ◌<◌, ◌++◌, ℕ, List, None, Some, IsTrue, MatchOption, decimal};
ghost use Rattle.std.specs.Prelude.{option_map, bytes_eq};
ghost use Rattle.jiter_value.specs.Words.{token_byte, token_of, item_spelled, part_spelled, pointed, pointed_by, view};
ghost use Rattle.jiter_value.specs.Words.{is_slash, slice_split, last_such, views, member_views};

use crate::value::access::item_at;
use crate::value::{JsonArray, JsonObject, JsonValue};

impl<'s> JsonValue<'s> {
    /// Returns the value that a JSON Pointer leads to (RFC 6901), or `None` if it leads nowhere.
    ///
    /// - The empty pointer leads to this value. Any other pointer must begin with a slash.
    /// - `/a/0` leads to the first item of the last member with the key `a`.
    /// - In a key, `~1` is a slash and `~0` is a tilde.
    /// - An index has no leading zero.
    ///
    /// # Examples
    ///
    /// ```rust
    /// let value = JsonValue::parse(alloc, br#"{"ports": [80, 443]}"#, false)?;
    /// assert_eq!(rt; value.pointer("/ports/1").and_then(|port| port.as_i64()), Some(443));
    /// ```
    pub fn pointer(&self, path: &str) -> Option<&JsonValue<'s>>
        ensures { option_map (λ v. view v.now) result ≡ pointed_by path.now (view self.now) }
    {
        if path.is_empty() {
            return Some(self);
        }
        follow(self, path.strip_prefix('/')?)
    }
}

// The path comes without its first slash.
fn follow<'v, 's>(value: &'v JsonValue<'s>, path: &str) -> Option<&'v JsonValue<'s>>
    ensures { option_map (λ v. view v.now) result
        ≡ pointed (slice_split is_slash path.now) (view value.now) }
{
    match path.split_once('/') {
        Some((token, more)) => follow(part_spelled(value, token)?, more),
        None => part_spelled(value, path),
    }
}

fn part_spelled<'v, 's>(value: &'v JsonValue<'s>, token: &str) -> Option<&'v JsonValue<'s>>
    ensures { option_map (λ v. view v.now) result ≡ part_spelled token.now (view value.now) }
{
    match value {
        JsonValue::Array(items) => item_spelled(items, token),
        JsonValue::Object(members) => last_spelled(members, token),
        _ => None,
    }
}

fn item_spelled<'v, 's>(items: &'v JsonArray<'s>, token: &str) -> Option<&'v JsonValue<'s>>
    ensures { option_map (λ v. view v.now) result ≡ item_spelled token.now 0 (views items.now.items) }
{
    match index_of(token) {
        Some(index) => item_at(items, index),
        None => None,
    }
}

fn index_of(token: &str) -> Option<usize>
    ensures { (n : ℕ) → n < 2 ^ 64 → (result ≡ Some n) ↔ (decimal n ≡ token.now) }
{
    let bytes = token.as_bytes();
    // A leading zero, or a sign: `parse` accepts both.
    if bytes.len() > 1 && bytes[0] < b'1' {
        return None;
    }
    token.parse::<usize>().ok()
}

fn last_spelled<'v, 's>(members: &'v JsonObject<'s>, token: &str) -> Option<&'v JsonValue<'s>>
    ensures { option_map (λ v. view v.now) result
        ≡ last_such (λ name. bytes_eq (token_of name) token.now) None
        (member_views members.now.items) }
{
    let mut rest = members.len();
    while rest > 0 {
        rest -= 1;
        let member = &members[rest];
        if spells(token.as_bytes(), member.0.as_str().as_bytes()) {
            return Some(&member.1);
        }
    }
    None
}

// Encodes the name byte by byte. Decoding the token instead would allocate.
fn spells(token: &[u8], name: &[u8]) -> bool
    ensures { IsTrue result ↔ (token_of name.now ≡ token.now) }
{
    let mut rest = token;
    for i in 0..name.len() {
        match after_byte(rest, name[i]) {
            Some(more) => rest = more,
            None => return false,
        }
    }
    rest.is_empty()
}

fn after_byte(token: &[u8], byte: u8) -> Option<&[u8]>
    ensures { MatchOption result ((rest : List ℕ) → token.now ≢ token_byte byte ++ rest)
        (λ rest. token.now ≡ token_byte byte ++ rest.now) }
{
    match byte {
        b'~' => token.strip_prefix(b"~0"),
        b'/' => token.strip_prefix(b"~1"),
        _ => token.strip_prefix(&[byte]),
    }
}
