//! Copies of values. A text is a string, a key or the source of a number. Only a `clone` may have borrowed texts.
ghost use Rattle.std.specs.Prelude.{◌≡◌, IfOk, OnErr, false, map, true};
ghost use Rattle.jiter_value.specs.Words.{text_view, owned_text, owned_tree, owned_member, HoldsTextOrPart};
ghost use Rattle.jiter_value.specs.Words.{HoldsOwnedTextOrPart, HoldsBorrowedTextOrPart, member_view, view};

use crate::value::{JsonArray, JsonObject, JsonValue};
use jiter_scan::memory::{AllocFailed, copy_text, push, with_capacity};
use std::alloc::{AllocError, Global};
use std::borrow::CowStr;
use std::mem;

impl<'s> JsonValue<'s> {
    /// Returns a copy in which each string, key and number text is borrowed or owned as it is here.
    ///
    /// Allocates one vector of the exact length for each container, and one string for each owned text, if not empty.
    ///
    /// # Errors
    ///
    /// `AllocError` if an allocation fails: only for a non-empty container, an owned string or an owned number text.
    pub fn clone(&self, alloc: Global) -> Result<JsonValue<'s>, AllocError>
        ensures value { IfOk result (λ v. view v ≡ view self.now) }
        ensures memory { OnErr result (HoldsOwnedTextOrPart (view self.now)) }
    {
        Ok(copy_value(alloc, self)?)
    }

    /// Returns a copy that owns all its strings, keys and number texts, so it borrows nothing.
    ///
    /// Allocates one vector of the exact length for each container, and one string for each text, if not empty.
    ///
    /// # Errors
    ///
    /// `AllocError` if an allocation fails: only for a non-empty container, a string or a number text.
    pub fn to_static(&self, alloc: Global) -> Result<JsonValue<'static>, AllocError>
        ensures value { IfOk result (λ v. view v ≡ owned_tree (view self.now)) }
        ensures memory { OnErr result (HoldsTextOrPart (view self.now)) }
    {
        Ok(own_value(alloc, self)?)
    }

    /// Turns the value into one that owns all its strings, keys and number texts, as [`JsonValue::to_static`] does.
    ///
    /// Owned texts are moved, and only borrowed ones are copied. The vectors of the containers are allocated anew.
    ///
    /// # Errors
    ///
    /// `AllocError`, only for a non-empty container or a borrowed text, if an allocation fails. The value is dropped.
    pub fn into_static(self, alloc: Global) -> Result<JsonValue<'static>, AllocError>
        ensures value { IfOk result (λ v. view v ≡ owned_tree (view self.entry)) }
        ensures memory { OnErr result (HoldsBorrowedTextOrPart (view self.entry)) }
    {
        let mut value = self;
        Ok(move_value(alloc, &mut value)?)
    }
}

// ---- `clone`

#[cycle(copy)]
#[tactic(auto, using(crate::proofs::Owning::copied_array, crate::proofs::Owning::copied_object))]
fn copy_value<'s>(alloc: Global, value: &JsonValue<'s>) -> Result<JsonValue<'s>, AllocFailed>
    ensures value { IfOk result (λ v. view v ≡ view value.now) }
    ensures memory { OnErr result (HoldsOwnedTextOrPart (view value.now)) }
{
    match value {
        JsonValue::Null => Ok(JsonValue::Null),
        JsonValue::Bool(truth) => Ok(JsonValue::Bool(*truth)),
        JsonValue::Int(integer) => Ok(JsonValue::Int(*integer)),
        JsonValue::BigInt(text) => Ok(JsonValue::BigInt(copy_cow(alloc, text)?)),
        JsonValue::Float(text) => Ok(JsonValue::Float(copy_cow(alloc, text)?)),
        JsonValue::Str(text) => Ok(JsonValue::Str(copy_cow(alloc, text)?)),
        JsonValue::Array(items) => Ok(JsonValue::Array(copy_items(alloc, items)?)),
        JsonValue::Object(members) => Ok(JsonValue::Object(copy_members(alloc, members)?)),
    }
}

#[cycle(copy)]
#[tactic(auto, using(crate::proofs::Owning::refused_array))]
fn copy_items<'s>(alloc: Global, items: &JsonArray<'s>) -> Result<JsonArray<'s>, AllocFailed>
    ensures value { IfOk result (λ v. map view v.items ≡ map view items.now.items) }
    ensures memory { OnErr result (HoldsOwnedTextOrPart (view (JsonValue.Array items.now))) }
{
    let mut copies = with_capacity(alloc, items.len())?;
    for i in 0..items.len() {
        let item = copy_value(alloc, &items[i])?;
        push(&mut copies, item)?;
    }
    Ok(copies)
}

#[cycle(copy)]
#[tactic(auto, using(crate::proofs::Owning::refused_object))]
fn copy_members<'s>(alloc: Global, members: &JsonObject<'s>) -> Result<JsonObject<'s>, AllocFailed>
    ensures value { IfOk result (λ v. map member_view v.items ≡ map member_view members.now.items) }
    ensures memory { OnErr result (HoldsOwnedTextOrPart (view (JsonValue.Object members.now))) }
{
    let mut copies = with_capacity(alloc, members.len())?;
    for i in 0..members.len() {
        let member = &members[i];
        let key = copy_cow(alloc, &member.0)?;
        let value = copy_value(alloc, &member.1)?;
        push(&mut copies, (key, value))?;
    }
    Ok(copies)
}

pub(crate) fn copy_cow<'s>(alloc: Global, text: &CowStr<'s>) -> Result<CowStr<'s>, AllocFailed>
    ensures value { IfOk result (λ copy. text_view copy ≡ text_view text.now) }
    ensures memory { OnErr result ((text_view text.now).owned ≡ true) }
{
    match text {
        CowStr::Borrowed(bytes) => Ok(CowStr::Borrowed(*bytes)),
        CowStr::Owned(owned) => Ok(CowStr::Owned(copy_text(alloc, owned.as_str())?)),
    }
}

// ---- `to_static`

#[cycle(own)]
#[tactic(auto, using(crate::proofs::Owning::owned_array, crate::proofs::Owning::owned_object))]
fn own_value(alloc: Global, value: &JsonValue<'_>) -> Result<JsonValue<'static>, AllocFailed>
    ensures value { IfOk result (λ v. view v ≡ owned_tree (view value.now)) }
    ensures memory { OnErr result (HoldsTextOrPart (view value.now)) }
{
    match value {
        JsonValue::Null => Ok(JsonValue::Null),
        JsonValue::Bool(truth) => Ok(JsonValue::Bool(*truth)),
        JsonValue::Int(integer) => Ok(JsonValue::Int(*integer)),
        JsonValue::BigInt(text) => Ok(JsonValue::BigInt(own_text(alloc, text)?)),
        JsonValue::Float(text) => Ok(JsonValue::Float(own_text(alloc, text)?)),
        JsonValue::Str(text) => Ok(JsonValue::Str(own_text(alloc, text)?)),
        JsonValue::Array(items) => Ok(JsonValue::Array(own_items(alloc, items)?)),
        JsonValue::Object(members) => Ok(JsonValue::Object(own_members(alloc, members)?)),
    }
}

#[cycle(own)]
#[tactic(auto, using(crate::proofs::Owning::refused_array))]
fn own_items(alloc: Global, items: &JsonArray<'_>) -> Result<JsonArray<'static>, AllocFailed>
    ensures value { IfOk result (λ v. map view v.items
        ≡ map owned_tree (map view items.now.items)) }
    ensures memory { OnErr result (HoldsTextOrPart (view (JsonValue.Array items.now))) }
{
    let mut copies = with_capacity(alloc, items.len())?;
    for i in 0..items.len() {
        let item = own_value(alloc, &items[i])?;
        push(&mut copies, item)?;
    }
    Ok(copies)
}

#[cycle(own)]
#[tactic(auto, using(crate::proofs::Owning::refused_object))]
fn own_members(alloc: Global, members: &JsonObject<'_>) -> Result<JsonObject<'static>, AllocFailed>
    ensures value { IfOk result (λ v. map member_view v.items
        ≡ map owned_member (map member_view members.now.items)) }
    ensures memory { OnErr result (HoldsTextOrPart (view (JsonValue.Object members.now))) }
{
    let mut copies = with_capacity(alloc, members.len())?;
    for i in 0..members.len() {
        let member = &members[i];
        let key = own_text(alloc, &member.0)?;
        let value = own_value(alloc, &member.1)?;
        push(&mut copies, (key, value))?;
    }
    Ok(copies)
}

fn own_text(alloc: Global, text: &CowStr<'_>) -> Result<CowStr<'static>, AllocFailed>
    ensures { IfOk result (λ copy. text_view copy ≡ owned_text (text_view text.now)) }
{
    Ok(CowStr::Owned(copy_text(alloc, text.as_str())?))
}

// ---- `into_static`

/// Returns a value that owns all its texts: moves the owned ones out of `value`, and copies the others.
#[cycle(move_out)]
#[tactic(auto, using(crate::proofs::Owning::owned_array, crate::proofs::Owning::owned_object))]
pub(crate) fn move_value(
    alloc: Global,
    value: &mut JsonValue<'_>,
) -> Result<JsonValue<'static>, AllocFailed>
    ensures value { IfOk result (λ v. view v ≡ owned_tree (view value.old)) }
    ensures memory { OnErr result (HoldsBorrowedTextOrPart (view value.old)) }
{
    match value {
        JsonValue::Null => Ok(JsonValue::Null),
        JsonValue::Bool(truth) => Ok(JsonValue::Bool(*truth)),
        JsonValue::Int(integer) => Ok(JsonValue::Int(*integer)),
        JsonValue::BigInt(text) => Ok(JsonValue::BigInt(move_text(alloc, text)?)),
        JsonValue::Float(text) => Ok(JsonValue::Float(move_text(alloc, text)?)),
        JsonValue::Str(text) => Ok(JsonValue::Str(move_text(alloc, text)?)),
        JsonValue::Array(items) => Ok(JsonValue::Array(move_items(alloc, items)?)),
        JsonValue::Object(members) => Ok(JsonValue::Object(move_members(alloc, members)?)),
    }
}

#[cycle(move_out)]
#[tactic(auto, using(crate::proofs::Owning::refused_array))]
fn move_items(alloc: Global, items: &mut JsonArray<'_>) -> Result<JsonArray<'static>, AllocFailed>
    ensures value { IfOk result (λ v. map view v.items
        ≡ map owned_tree (map view items.old.items)) }
    ensures memory { OnErr result (HoldsBorrowedTextOrPart (view (JsonValue.Array items.old))) }
{
    let mut moved = with_capacity(alloc, items.len())?;
    for i in 0..items.len() {
        let item = move_value(alloc, &mut items[i])?;
        push(&mut moved, item)?;
    }
    Ok(moved)
}

#[cycle(move_out)]
#[tactic(auto, using(crate::proofs::Owning::refused_object))]
fn move_members(
    alloc: Global,
    members: &mut JsonObject<'_>,
) -> Result<JsonObject<'static>, AllocFailed>
    ensures value { IfOk result (λ v. map member_view v.items
        ≡ map owned_member (map member_view members.old.items)) }
    ensures memory { OnErr result (HoldsBorrowedTextOrPart (view (JsonValue.Object members.old))) }
{
    let mut moved = with_capacity(alloc, members.len())?;
    for i in 0..members.len() {
        let member = &mut members[i];
        let key = move_text(alloc, &mut member.0)?;
        let value = move_value(alloc, &mut member.1)?;
        push(&mut moved, (key, value))?;
    }
    Ok(moved)
}

fn move_text(alloc: Global, text: &mut CowStr<'_>) -> Result<CowStr<'static>, AllocFailed>
    ensures value { IfOk result (λ moved. text_view moved ≡ owned_text (text_view text.old)) }
    ensures memory { OnErr result ((text_view text.old).owned ≡ false) }
{
    own_cow(alloc, mem::replace(text, CowStr::Borrowed("")))
}

/// Returns an owned text itself, and a copy of a borrowed one.
#[inline(always)]
pub(crate) fn own_cow<'s>(alloc: Global, text: CowStr<'_>) -> Result<CowStr<'s>, AllocFailed>
    ensures value { IfOk result (λ owned. text_view owned ≡ owned_text (text_view text.entry)) }
    ensures memory { OnErr result ((text_view text.entry).owned ≡ false) }
{
    match text {
        CowStr::Borrowed(borrowed) => Ok(CowStr::Owned(copy_text(alloc, borrowed)?)),
        CowStr::Owned(owned) => Ok(CowStr::Owned(owned)),
    }
}
