//! Skips a value. Nothing is built, decoded or allocated.
ghost use Rattle.std.specs.Prelude.{◌≡◌, ◌≢◌, ℕ, Bool, true, false, ◌+◌, ◌<◌, ◌≤◌, ◌∷◌, IfOk, OnOk, Ok, length, IfSome};
ghost use Rattle.std.specs.Prelude.{slice_index, None};
ghost use Rattle.jiter_steps.specs.Words.{only_ends, skip_at, resume, value_from, start_of, nesting_limit, done, opening};
ghost use Rattle.jiter_steps.specs.Words.{scalar_at, value_at, step_of, Continues, inside, open_frames};
ghost use Rattle.jiter_steps.specs.Parse.{NeverMovesBack, Reads};

use crate::fast_skip::{SKIP_REACH, fast_end, fast_first_inside, fast_run, fast_value_end};
use crate::parse::{ContainerKind, NESTING_LIMIT, Parser, Start, literal_end, start_of};
use crate::raw_string::string_end;
use crate::step::{Step, first, member_value, next};
use jiter_scan::errors::{Fault, FaultKind, fault_at};
use jiter_scan::number::number_span::number_end;

// How many open containers the table can hold: more than `NESTING_LIMIT`.
const TABLE_SIZE: usize = 256;

// The kinds of the open containers, the outermost first.
#[derive(Drop)]
struct Nest {
    kinds: [ContainerKind; TABLE_SIZE],
    depth: usize,
    ghost within: { depth ≤ nesting_limit },
}

// Goes from the end of a step to the value there, in an object past its key and colon. `false`: the container ended.
#[inline(always)]
fn inside(
    parser: &mut Parser<'_>,
    found: (usize, Step),
    shape: ContainerKind,
) -> Result<bool, Fault>
    requires place { (parser.old.index ≤ found.0) × (found.0 ≤ length parser.old.bytes.now) }
    requires part { found.1 ≡ Step.Part → found.0 < length parser.old.bytes.now }
    ensures moves { NeverMovesBack parser.old parser.new }
    ensures value { Reads (λ more. more) result parser.new.index
        (inside shape parser.old.bytes.now (step_of found.0 found.1)) }
    ensures inside { IfOk result (λ more. more ≡ true
        → parser.new.index < length parser.old.bytes.now) }
    ensures ahead { OnOk result (found.0 ≤ parser.new.index) }
{
    let (at, step) = found;
    parser.index = at;
    match (step, shape) {
        (Step::Fault(kind), _) => Err(fault_at(kind, at)),
        (Step::End, _) => Ok(false),
        (Step::Part, ContainerKind::Array) => Ok(true),
        (Step::Part, ContainerKind::Object) => {
            let end = string_end(parser.bytes, at)?;
            let (value, fault) = member_value(parser.bytes, end);
            parser.index = value;
            match fault {
                None => Ok(true),
                Some(kind) => Err(fault_at(kind, value)),
            }
        }
    }
}

// Goes to the first value inside, and adds the container to the table. The nesting limit's error is at that value.
#[inline(always)]
fn begin(parser: &mut Parser<'_>, nest: &mut Nest, shape: ContainerKind) -> Result<bool, Fault>
    requires within { parser.old.index < length parser.old.bytes.now }
    requires bracket { start_of (slice_index parser.old.bytes.now parser.old.index)
        ≡ opening shape }
    ensures moves { NeverMovesBack parser.old parser.new }
    ensures value { (names : Bool) → Continues names parser.old.bytes.now
        (open_frames nest.new.kinds nest.new.depth) result parser.new.index
        (value_from (only_ends names) parser.old.bytes.now
        (open_frames nest.old.kinds nest.old.depth) parser.old.index) }
    ensures ahead { OnOk result (parser.old.index < parser.new.index) }
{
    match inside(parser, first(parser.bytes, parser.index + 1, shape), shape) {
        Ok(true) => {
            if nest.depth == NESTING_LIMIT {
                return Err(fault_at(FaultKind::RecursionLimitExceeded, parser.index));
            }
            nest.kinds[nest.depth] = shape;
            nest.depth += 1;
            Ok(true)
        }
        Ok(false) => Ok(false),
        Err(fault) => Err(fault),
    }
}

#[inline(always)]
fn skip_scalar(parser: &mut Parser<'_>, allow_inf_nan: bool) -> Result<(), Fault>
    requires within { parser.old.index < length parser.old.bytes.now }
    requires array { start_of (slice_index parser.old.bytes.now parser.old.index) ≢ Start.Array }
    requires object { start_of (slice_index parser.old.bytes.now parser.old.index) ≢ Start.Object }
    ensures moves { NeverMovesBack parser.old parser.new }
    ensures value { (levels : ℕ) → Reads (λ u. u) result parser.new.index
        (value_at (only_ends allow_inf_nan) parser.old.bytes.now levels parser.old.index) }
    ensures ahead { OnOk result (parser.old.index < parser.new.index) }
{
    let at = parser.index;
    match start_of(parser.bytes[at]) {
        Start::Literal(literal) => parser.index = literal_end(parser.bytes, at, literal)?,
        Start::Number => parser.index = number_end(parser.bytes, at, allow_inf_nan)?,
        Start::String => parser.index = string_end(parser.bytes, at)?,
        Start::Nothing => return Err(fault_at(FaultKind::ExpectedSomeValue, at)),
        Start::Array => unreachable!(),
        Start::Object => unreachable!(),
    }
    Ok(())
}

// Returns `true` at the first value inside, and `false` after the value.
#[inline(always)]
fn begin_value(parser: &mut Parser<'_>, nest: &mut Nest, allow_inf_nan: bool) -> Result<bool, Fault>
    requires { parser.old.index < length parser.old.bytes.now }
    ensures moves { NeverMovesBack parser.old parser.new }
    ensures value { Continues allow_inf_nan parser.old.bytes.now
        (open_frames nest.new.kinds nest.new.depth) result parser.new.index
        (value_from (only_ends allow_inf_nan) parser.old.bytes.now
        (open_frames nest.old.kinds nest.old.depth) parser.old.index) }
    ensures ahead { OnOk result (parser.old.index < parser.new.index) }
{
    match start_of(parser.bytes[parser.index]) {
        Start::Array => begin(parser, nest, ContainerKind::Array),
        Start::Object => begin(parser, nest, ContainerKind::Object),
        _ => {
            skip_scalar(parser, allow_inf_nan)?;
            Ok(false)
        }
    }
}

// Closes the containers that end here. Returns `true` at the next value, and `false` if no container is open.
#[inline(always)]
fn end_value(parser: &mut Parser<'_>, nest: &mut Nest) -> Result<bool, Fault>
    ensures moves { NeverMovesBack parser.old parser.new }
    ensures value { (names : Bool) → Continues names parser.old.bytes.now
        (open_frames nest.new.kinds nest.new.depth) result parser.new.index (resume (only_ends names)
        parser.old.bytes.now (open_frames nest.old.kinds nest.old.depth)
        (done tt parser.old.index)) }
    ensures all { IfOk result (λ more. more ≡ false → nest.new.depth ≡ 0) }
{
    'closing: loop {
        if nest.depth == 0 {
            return Ok(false);
        }
        let shape = nest.kinds[nest.depth - 1];
        match inside(parser, next(parser.bytes, parser.index, shape), shape) {
            Ok(true) => return Ok(true),
            Ok(false) => nest.depth -= 1,
            Err(fault) => return Err(fault),
        }
    }
}

// The fast path after a value. Returns an index, how many containers are open there, and whether a value begins there.
// If not, the last one ended there. Here and below, `last` is the last index with `SKIP_REACH` bytes left.
#[inline(always)]
fn fast_after(
    bytes: &[u8],
    from: usize,
    nest: &Nest,
    depth: usize,
    last: usize,
) -> (usize, usize, bool)
    requires room { last + 68 ≤ length bytes.now }
    requires within { from ≤ length bytes.now }
    requires few { depth ≤ nesting_limit }
    ensures leads { (names : Bool) → Continues names bytes.now (open_frames nest.now.kinds result.1)
        (Ok result.2) result.0 (resume (only_ends names) bytes.now
        (open_frames nest.now.kinds depth) (done tt from)) }
    ensures place { (from ≤ result.0) × (result.0 ≤ length bytes.now) }
    ensures few { result.1 ≤ nesting_limit }
{
    let mut end = from;
    let mut open = depth;
    'closing: while open > 0 {
        let shape = nest.kinds[open - 1];
        let (place, more) = fast_run(bytes, end, shape, last);
        if more {
            return (place, open, true);
        }
        match fast_end(bytes, place, shape) {
            None => return (place, open, false),
            Some(after) => end = after,
        }
        open -= 1;
    }
    (end, open, false)
}

// The fast path into a container. Returns the index of the first value inside.
#[inline(always)]
fn fast_open(bytes: &[u8], at: usize, nest: &mut Nest, depth: usize, last: usize) -> Option<usize>
    requires room { last + 68 ≤ length bytes.now }
    requires within { at ≤ last }
    requires few { depth ≤ nesting_limit }
    ensures leads { IfSome result (λ next. (names : Bool)
        → value_from (only_ends names) bytes.now (open_frames nest.old.kinds depth) at
        ≡ value_from (only_ends names) bytes.now (open_frames nest.new.kinds (depth + 1)) next) }
    ensures within { IfSome result (λ next. (at < next) × (next < length bytes.now)) }
    ensures few { IfSome result (λ next. depth < nesting_limit) }
    ensures same { result ≡ None → nest.new ≡ nest.old }
{
    match bytes[at] {
        b'[' if depth < NESTING_LIMIT => {
            let next = fast_first_inside(bytes, at, ContainerKind::Array, last)?;
            nest.kinds[depth] = ContainerKind::Array;
            Some(next)
        }
        b'{' if depth < NESTING_LIMIT => {
            let next = fast_first_inside(bytes, at, ContainerKind::Object, last)?;
            nest.kinds[depth] = ContainerKind::Object;
            Some(next)
        }
        _ => None,
    }
}

// The fast path. Returns `true` at a value that the slow path must read, and `false` after a value.
#[inline(never)]
fn fast_turns(bytes: &[u8], from: usize, nest: &mut Nest) -> (usize, bool)
    requires { from < length bytes.now }
    ensures leads { (names : Bool) → Continues names bytes.now
        (open_frames nest.new.kinds nest.new.depth) (Ok result.1) result.0 (value_from (only_ends names)
        bytes.now (open_frames nest.old.kinds nest.old.depth) from) }
    ensures place { (from ≤ result.0) × (result.0 ≤ length bytes.now) }
    ensures ahead { result.1 ≡ false → from < result.0 }
{
    if bytes.len() < SKIP_REACH {
        return (from, true);
    }
    let last = bytes.len() - SKIP_REACH;
    let mut at = from;
    let mut depth = nest.depth;
    'turns: while at <= last {
        if let Some(next) = fast_open(bytes, at, nest, depth, last) {
            at = next;
            depth += 1;
            continue 'turns;
        }
        let Some(end) = fast_value_end(bytes, at) else {
            break 'turns;
        };
        let (next, open, more) = fast_after(bytes, end, nest, depth, last);
        depth = open;
        if !more {
            nest.depth = depth;
            return (next, false);
        }
        at = next;
    }
    nest.depth = depth;
    (at, true)
}

// Where the fast path stops, the slow path makes one step.
fn skip_container(parser: &mut Parser<'_>, allow_inf_nan: bool) -> Result<(), Fault>
    requires { parser.old.index < length parser.old.bytes.now }
    ensures moves { NeverMovesBack parser.old parser.new }
    ensures value { Reads (λ u. u) result parser.new.index
        (skip_at allow_inf_nan parser.old.bytes.now parser.old.index) }
    ensures ahead { OnOk result (parser.old.index < parser.new.index) }
{
    let mut nest = Nest {
        kinds: [ContainerKind::Array; TABLE_SIZE],
        depth: 0,
    };
    'skipping: loop {
        let (at, more) = fast_turns(parser.bytes, parser.index, &mut nest);
        parser.index = at;
        if more && begin_value(parser, &mut nest, allow_inf_nan)? {
            continue 'skipping;
        }
        if !end_value(parser, &mut nest)? {
            return Ok(());
        }
    }
}

/// Skips the value at the reader's position (RFC 8259, 3). Nothing is built or decoded, and UTF-8 is not tested.
///
/// After an error the reader is at the first byte of the scalar or key that has it, otherwise at the error's index.
pub fn skip(parser: &mut Parser<'_>, allow_inf_nan: bool) -> Result<(), Fault>
    requires { parser.old.index < length parser.old.bytes.now }
    ensures moves { NeverMovesBack parser.old parser.new }
    ensures value { Reads (λ u. u) result parser.new.index
        (skip_at allow_inf_nan parser.old.bytes.now parser.old.index) }
    ensures ahead { OnOk result (parser.old.index < parser.new.index) }
{
    match start_of(parser.bytes[parser.index]) {
        Start::Array => skip_container(parser, allow_inf_nan),
        Start::Object => skip_container(parser, allow_inf_nan),
        _ => skip_scalar(parser, allow_inf_nan),
    }
}
