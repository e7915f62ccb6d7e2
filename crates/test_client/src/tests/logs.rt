//! The example of docs/CALLING.md with the crate `json_lines`.
use jiter::JsonValue;
use jiter_print::print;
use json_lines::{Convert, Counts, Origin, Outcome, convert_log};
use std::alloc::{AllocError, Global};
use std::io::BufReader;
use std::test::*;

struct Compact;

impl Convert for Compact {
    ghost becomes = { λ _ _ _. Unit {0} };

    fn convert(&self, alloc: Global, line: &[u8]) -> Result<Outcome, AllocError> {
        match JsonValue::parse(alloc, line, false) {
            Ok(value) => {
                let mut text = print(alloc, &value)?;
                text.push(b'\n')?;
                Ok(Outcome::Text(text))
            }
            Err(error) if error.is_memory() => Err(AllocError),
            Err(error) => {
                let cause = format!(in alloc; "{}", error.error_type)?;
                Ok(Outcome::Refused(error.index + 1, cause))
            }
        }
    }
}

#[test]
fn a_log_is_converted(rt: HostRuntime) -> Result<(), Fail> {
    let alloc = rt.alloc();
    let log = b"{\"level\": \"info\"}\r\n{\"level\": \n[1, 2]".as_slice();
    let mut reader = BufReader::new(alloc, log)?;
    let (mut out, mut err, mut bad) = (Vec::new(alloc), Vec::new(alloc), Vec::new(alloc));
    let origin = Origin {
        name: "app.log",
        first_line: 1,
    };
    let counts = convert_log(
        alloc,
        &Compact,
        &origin,
        &mut reader,
        &mut out,
        &mut err,
        &mut bad,
    )?;
    let wanted = Counts {
        texts: 2,
        refused: 1,
    };
    assert_eq!(rt; counts, wanted);
    assert_eq!(rt; out.as_slice(), b"{\"level\":\"info\"}\n[1,2]\n".as_slice());
    assert_eq!(rt;
        err.as_slice(),
        b"app.log:2:11: EOF while parsing a value\n".as_slice()
    );
    assert_eq!(rt; bad.as_slice(), b"{\"level\": \n".as_slice());
    Ok(())
}
