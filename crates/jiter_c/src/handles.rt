//! Values that own memory and that C keeps: each is in a box, and C has a handle of it.
ghost use Rattle.std.specs.Prelude.{◌≡◌};
ghost use Rattle.jiter_c.specs.declared.handles.Contents.{Contents};
ghost use Rattle.jiter_c.specs.Handles.{contents_coded, contents_owns};

mod parts;

use core::mem::replace_with;
use jiter::JsonValue;
use jiter_incremental::{IncrementalParser, LineIndex};
use parts::Parts;
use std::alloc::Global;
use std::marker::Model;

/// What a handle holds.
#[derive(Drop)]
pub enum Contents {
    /// Nothing: the handle is new, or what it held was moved out.
    Nothing,
    /// A parser.
    Parser(IncrementalParser),
    /// The value of a document.
    Document(JsonValue<'static>),
    /// The line feeds of chunks.
    Lines(LineIndex),
}

/// A handle: one pointer, which the caller keeps and never reads. The allocator has no bytes.
#[repr(C)]
pub struct JiterHandle {
    pointer: *mut u8,
    alloc: Global,
    pub ghost value: { Contents } by { contents_coded },
}

impl Model for JiterHandle {
    ghost also_owns = { λ h. contents_owns h.alloc h.pointer h.value };
}

fn into_parts(handle: JiterHandle) -> Parts<Contents, Global>
    ensures { result.value ≡ handle.value }
{
    let JiterHandle { pointer, alloc } = handle;
    Parts {
        ptr: pointer as *mut Contents,
        alloc,
    }
}

fn of_parts(parts: Parts<Contents, Global>) -> JiterHandle
    ensures { result.value ≡ parts.value }
{
    let Parts { ptr, alloc } = parts;
    JiterHandle {
        pointer: ptr as *mut u8,
        alloc,
    }
}

/// Returns the box of the handle.
pub fn open(handle: JiterHandle) -> Box<Contents>
    ensures { result.value ≡ handle.value }
{
    into_parts(handle).into_box()
}

/// Returns the handle of a box.
pub fn close(contents: Box<Contents>) -> JiterHandle
    ensures { result.value ≡ contents.value }
{
    of_parts(Parts::of(contents))
}

fn filled(handle: JiterHandle, value: Contents) -> JiterHandle
    ensures { result.value ≡ value }
{
    let mut contents = open(handle);
    *contents = value;
    close(contents)
}

/// Gives the handle this value. What it held before is freed.
pub fn fill(handle: &mut JiterHandle, value: Contents)
    ensures { handle.new.value ≡ value }
{
    replace_with(handle, value, |handle, value| (filled(handle, value), ()));
}

/// Writes a new handle, which holds nothing, to `pointer`.
///
/// No clause can say that `pointer` then is a handle: the calls that fill a handle say what it holds.
///
/// # Errors
///
/// Returns `false` and writes nothing:
///
/// - if an allocation fails
#[unsafe(no_mangle)]
pub extern "C" fn jiter_handle_new(alloc: Global, pointer: &mut *mut u8) -> bool {
    match Box::new(alloc, Contents::Nothing) {
        Ok(contents) => {
            *pointer = Box::into_raw(contents) as *mut u8;
            true
        }
        Err(_) => false,
    }
}

/// Frees a handle and what it holds.
#[unsafe(no_mangle)]
pub extern "C" fn jiter_handle_free(handle: JiterHandle) {
    drop(open(handle));
}
