//! Values on one line.
use std::alloc::AllocError;
use std::str;

/// A value that can be told on one line.
pub trait Tell: Drop {
    /// Appends the value to the line.
    fn tell(&self, line: &mut String) -> Result<(), AllocError>;
}

impl Tell for String {
    fn tell(&self, line: &mut String) -> Result<(), AllocError> {
        line.push_str("'")?;
        line.push_str(self.as_str())?;
        line.push_str("'")
    }
}

impl<V: Tell> Tell for Vec<V> {
    fn tell(&self, line: &mut String) -> Result<(), AllocError> {
        line.push_str("[")?;
        for value in self {
            value.tell(line)?;
            line.push_str(" ")?;
        }
        line.push_str("]")
    }
}

impl<V: Tell> Tell for Option<V> {
    fn tell(&self, line: &mut String) -> Result<(), AllocError> {
        match self {
            Some(value) => value.tell(line),
            None => line.push_str("null"),
        }
    }
}

/// Appends the bytes.
pub fn tell_bytes(bytes: &[u8], line: &mut String) -> Result<(), AllocError> {
    match str::from_utf8(bytes) {
        Ok(text) => line.push_str(text),
        Err(_) => line.push_str("no UTF-8"),
    }
}

/// Appends `true` or `false`.
pub fn tell_flag(flag: bool, line: &mut String) -> Result<(), AllocError> {
    line.push_str(if flag { "true" } else { "false" })
}

/// Appends the digits.
pub fn tell_number(number: u64, line: &mut String) -> Result<(), AllocError> {
    let digits = number.to_string(*line.allocator())?;
    line.push_str(digits.as_str())
}
