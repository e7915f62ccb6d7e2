//! Clones and equality of errors, where duplicate keys are refused.
use jiter_scan::{JsonErrorType as Kind, PartialMode};
use jiter_value::{JsonValue, UniqueError, UniqueErrorType};
use std::alloc::Global;
use std::test::*;

// The error of bytes that are refused.
fn error_of(alloc: Global, bytes: &[u8]) -> Result<UniqueError, Fail> {
    match JsonValue::parse_unique(alloc, bytes, false, PartialMode::Off) {
        Ok(_) => Err("not refused")?,
        Err(error) => Ok(error),
    }
}

#[test]
fn a_clone_is_like_its_original_and_memory_is_told_apart(rt: HostRuntime) -> Result<(), Fail> {
    let alloc = rt.alloc();
    let repeated = error_of(alloc, b"{\"a\":1,\"a\":2}")?;
    let copy = repeated.clone(alloc)?;
    assert!(rt; copy == repeated);
    let other = error_of(alloc, b"{\"b\":1,\"b\":2}")?;
    assert!(rt; copy != other);
    let fault = error_of(alloc, b"[1,]")?;
    let copy = fault.clone(alloc)?;
    assert!(rt; copy == fault);
    assert!(rt; copy != repeated);
    assert!(rt; repeated.error_type.clone(alloc)? == repeated.error_type);
    let refused = UniqueError {
        error_type: UniqueErrorType::JsonError(Kind::OutOfMemory),
        index: 0,
    };
    assert!(rt; refused.is_memory() && !repeated.is_memory());
    Ok(())
}
