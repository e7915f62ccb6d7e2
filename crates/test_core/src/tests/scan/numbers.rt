//! Clones and equality of numbers.
use jiter_scan::number::number_decoder::{NumberAny, NumberInt};
use std::test::*;

// No two of them are equal.
fn numbers() -> [NumberAny<'static>; 8] {
    [
        NumberAny::Int(NumberInt::Int(1)),
        NumberAny::Int(NumberInt::Int(-7)),
        NumberAny::Int(NumberInt::BigInt("1")),
        NumberAny::Int(NumberInt::BigInt("9223372036854775808")),
        NumberAny::Int(NumberInt::BigInt("9223372036854775809")),
        NumberAny::Float("1"),
        NumberAny::Float("1.0"),
        NumberAny::Float("1.00"),
    ]
}

#[test]
fn a_number_is_equal_to_its_clone_alone(rt: HostRuntime) -> Result<(), Fail> {
    for (left, number) in numbers().iter().enumerate() {
        let copy = number.clone()?;
        for (right, other) in numbers().iter().enumerate() {
            assert_eq!(rt; copy == *other, left == right, "{number:?} and {other:?}");
        }
    }
    Ok(())
}
