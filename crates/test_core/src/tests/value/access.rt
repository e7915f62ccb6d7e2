//! Looking into a value: the example of docs/CALLING.md, and a text that is taken out.
use jiter_value::JsonValue;
use std::borrow::CowStr;
use std::mem;
use std::test::*;

fn first_port(value: &JsonValue<'_>) -> Option<i64> {
    value.get("ports")?.at(0)?.as_i64()
}

#[test]
fn a_port_is_found(rt: HostRuntime) -> Result<(), Fail> {
    let document = br#"{"ports": [80, 443], "ports": [8080]}"#;
    let value = JsonValue::parse(rt.alloc(), document, false)?;
    assert_eq!(rt; first_port(&value), Some(8080));
    Ok(())
}

#[test]
fn a_text_is_taken_out_of_a_value(rt: HostRuntime) {
    let alloc = rt.alloc();
    match &mut JsonValue::parse(alloc, br#""a\u0062""#, false) {
        Ok(JsonValue::Str(text)) => {
            let taken = mem::replace(text, CowStr::Borrowed(""));
            assert_eq!(rt; taken.as_str(), "ab");
            assert_eq!(rt; text.as_str(), "");
        }
        _ => assert!(rt; false),
    }
}

#[test]
fn a_value_is_compared_with_a_text_a_number_and_a_bool(rt: HostRuntime) -> Result<(), Fail> {
    let document = br#"["a\u0062", 5, 5.0, true, null, "5", "true", false, -5]"#;
    let value = JsonValue::parse(rt.alloc(), document, false)?;
    let mut equal = [0u16, 0, 0];
    for i in 0..9usize {
        let item = value.at(i).ok_or("fewer items")?;
        equal[0] = (equal[0] << 1) | u16::from(item.eq_str("ab"));
        equal[1] = (equal[1] << 1) | u16::from(item.eq_i64(5));
        equal[2] = (equal[2] << 1) | u16::from(item.eq_bool(true));
    }
    assert_eq!(rt; equal, [0b1_0000_0000, 0b0_1000_0000, 0b0_0010_0000]);
    let empty = JsonValue::parse(rt.alloc(), br#""""#, false)?;
    assert!(rt;
        empty.eq_str("") && !empty.eq_str("a") && !empty.eq_i64(0) && !empty.eq_bool(false)
    );
    Ok(())
}
