//! The path to the value of a document that holds a byte.
ghost use Rattle.std.specs.Prelude.{◌≡◌, ◌<◌, ◌≤◌, ◌^◌, ◌&&◌, ◌||◌, ℕ, IfOk, None, false, is_err, is_none, length, nat_le, nat_lt, option_map};
ghost use Rattle.std.specs.Prelude.{string_bytes};
ghost use Rattle.jiter.specs.Caller.{IsDocument, MovesOn, Node, NodeMembers, Nodes, at_start, value_place, with_position};
ghost use Rattle.jiter_walk.specs.Path.{key_token, path_in};
ghost use Rattle.jiter_walk.specs.Search.{Sought, item_passed, member_passed, part_begun, part_view, sought};
ghost use Rattle.jiter_walk.specs.Walk.{Comes, index_of};

use crate::items::{Items, each_item};
use crate::members::{Members, each_member};
use crate::scalars::skip;
use crate::walk_error::WalkError;
use jiter::{Jiter, Peek};
use std::alloc::{AllocError, Global};

// A part of a container: its step in the path, and the index of its value.
#[derive(Drop)]
struct Part {
    step: String,
    begin: usize,
}

// A search in one container for the part that holds the index.
#[derive(Drop)]
struct Search {
    index: usize,
    // How many items were passed.
    passed: usize,
    found: Option<Part>,
}

// A slash, and the name with `~0` for `~` and `~1` for `/` (RFC 6901, 3).
fn key_step(alloc: Global, name: &str) -> Result<String, AllocError>
    ensures { IfOk result (λ step. string_bytes step ≡ key_token name.now) }
{
    let mut step = String::new(alloc);
    step.push('/')?;
    for c in name.chars() {
        match c {
            '~' => step.push_str("~0")?,
            '/' => step.push_str("~1")?,
            _ => step.push(c)?,
        }
    }
    Ok(step)
}

// Returns the index of the value that comes next, or of the end if only whitespace is left.
fn value_index(jiter: &mut Jiter<'_>) -> usize
    ensures moves { MovesOn jiter.old jiter.new }
    ensures place { jiter.new.position ≡ value_place jiter.old }
    ensures at { result ≡ jiter.new.position }
{
    let _peek = jiter.peek();
    jiter.current_index()
}

impl Search {
    fn new(index: usize) -> Search
        ensures { sought result ≡ record { index = index; passed = 0; found = None } }
    {
        Search {
            index,
            passed: 0,
            found: None,
        }
    }

    // Returns whether the part from `at` to the reader's position is the one. If the skip failed, the part has no end.
    fn is_here(&self, at: usize, skipped: &Result<(), WalkError<()>>, jiter: &Jiter<'_>) -> bool
        ensures { result ≡ (is_none self.now.found
            && (nat_le at self.now.index && (is_err skipped.now || nat_lt self.now.index jiter.now.position))) }
    {
        self.found.is_none()
            && at <= self.index
            && (skipped.is_err() || self.index < jiter.current_index())
    }
}

impl<'j> Members<'j, ()> for Search {
    ghost State = { Sought };

    ghost state = { sought };

    ghost after = { member_passed };

    fn member(
        &mut self,
        alloc: Global,
        key: &str,
        at: usize,
        jiter: &mut Jiter<'j>,
    ) -> Result<(), WalkError<()>> {
        let begin = value_index(jiter);
        let skipped = skip(jiter);
        if self.is_here(at, &skipped, jiter) {
            match key_step(alloc, key) {
                Ok(step) => self.found = Some(Part { step, begin }),
                Err(_) => return Err(WalkError::Reader(jiter.out_of_memory())),
            }
        }
        skipped
    }
}

impl<'j> Items<'j, ()> for Search {
    ghost State = { Sought };

    ghost state = { sought };

    ghost after = { item_passed };

    fn item(&mut self, alloc: Global, jiter: &mut Jiter<'j>) -> Result<(), WalkError<()>> {
        let begin = value_index(jiter);
        let skipped = skip(jiter);
        let number = self.passed;
        self.passed = number.saturating_add(1);
        if self.is_here(begin, &skipped, jiter) {
            match format!(in alloc; "/{number}") {
                Ok(step) => self.found = Some(Part { step, begin }),
                Err(_) => return Err(WalkError::Reader(jiter.out_of_memory())),
            }
        }
        skipped
    }
}

// Looks for the item of the array at `at`. The item may have been found before an error.
fn item_from(
    alloc: Global,
    bytes: &[u8],
    at: usize,
    index: usize,
) -> Result<Option<Part>, AllocError>
    requires at { at ≤ length bytes.now }
    requires size { length bytes.now < 2 ^ 64 }
    ensures { (b e : ℕ) (ns : Nodes) → Comes (with_position (at_start bytes.now) at) (Node.array b e ns)
        → IfOk result (λ part. option_map part_view part ≡ part_begun bytes.now index (Node.array b e ns)) }
{
    let mut search = Search::new(index);
    match each_item(alloc, &mut Jiter::new_at(bytes, at), &mut search) {
        Ok(()) => Ok(search.found),
        Err(error) if error.is_memory() => Err(AllocError),
        Err(_) => Ok(search.found),
    }
}

// Looks for the member of the object at `at`, in the same way.
fn member_from(
    alloc: Global,
    bytes: &[u8],
    at: usize,
    index: usize,
) -> Result<Option<Part>, AllocError>
    requires { at ≤ length bytes.now }
    ensures { (b e : ℕ) (ms : NodeMembers) → Comes (with_position (at_start bytes.now) at) (Node.object b e ms)
        → IfOk result (λ part. option_map part_view part ≡ part_begun bytes.now index (Node.object b e ms)) }
{
    let mut search = Search::new(index);
    match each_member(alloc, &mut Jiter::new_at(bytes, at), &mut search) {
        Ok(()) => Ok(search.found),
        Err(error) if error.is_memory() => Err(AllocError),
        Err(_) => Ok(search.found),
    }
}

// Looks for the part of the value at `at`. A scalar has none.
fn part_from(
    alloc: Global,
    bytes: &[u8],
    at: usize,
    index: usize,
) -> Result<Option<Part>, AllocError>
    requires at { at ≤ length bytes.now }
    requires size { length bytes.now < 2 ^ 64 }
    ensures { (n : Node) → Comes (with_position (at_start bytes.now) at) n
        → IfOk result (λ part. option_map part_view part ≡ part_begun bytes.now index n) }
{
    match Jiter::new_at(bytes, at).peek() {
        Ok(Peek::Array) => item_from(alloc, bytes, at, index),
        Ok(Peek::Object) => member_from(alloc, bytes, at, index),
        _ => Ok(None),
    }
}

/// Returns the path to the innermost value that holds the byte at `index`, as a JSON Pointer (RFC 6901).
///
/// The path of a value is also that of its key and colon. The path is empty for the outermost value, and for an index
/// outside it.
///
/// If the bytes aren't a document, it is the path of the value that was being read at `index`, or at the first error before
/// it.
///
/// Reads the bytes of each container on the path again, to the container's end.
///
/// # Errors
///
/// - `AllocError` if an allocation fails
///
/// # Examples
///
/// ```rust
/// let bytes = br#"{"server": {"ports": [80, "no"]}}"#;
/// assert_eq!(rt; path_at(alloc, bytes, 26)?.as_str(), "/server/ports/1");
/// ```
pub fn path_at(alloc: Global, bytes: &[u8], index: usize) -> Result<String, AllocError>
    ensures { (n : Node) → IsDocument false bytes.now n → IfOk result (λ path. string_bytes path ≡ path_in bytes.now index n) }
{
    let end = bytes.len();
    let mut path = String::new(alloc);
    let mut at = 0;
    while let Some(part) = part_from(alloc, bytes, at, index)? {
        // (In a document the value of a part always begins after its container.)
        if part.begin <= at || end < part.begin {
            break;
        }
        path.push_str(part.step.as_str())?;
        at = part.begin;
    }
    Ok(path)
}

impl<C> WalkError<C> {
    /// Returns the path to the value at which the error is, in the bytes that were read. See [`path_at`].
    ///
    /// # Errors
    ///
    /// - `AllocError` if an allocation fails
    pub fn path(&self, alloc: Global, bytes: &[u8]) -> Result<String, AllocError>
        ensures { (n : Node) → IsDocument false bytes.now n
            → IfOk result (λ path. string_bytes path ≡ path_in bytes.now (index_of self.now) n) }
    {
        match self {
            Self::Reader(error) => path_at(alloc, bytes, error.index),
            Self::Custom(_, index) => path_at(alloc, bytes, *index),
        }
    }
}
