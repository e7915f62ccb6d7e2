//! Writing a complete line.
ghost use Rattle.std.specs.Prelude.{OnErr, OnOk};
ghost use Rattle.std.specs.Io.KnownBytes.{Appends};
ghost use Rattle.jiter_print.specs.Written.{AppendsPrefix};

use std::io;
use std::io::{ErrorKind, Write};

/// Writes all bytes of a line to `writer` and flushes it. An interrupted write is tried again.
///
/// # Errors
///
/// - the first error of a `write` that is not `Interrupted`, or the error of `flush`
/// - `WriteZero` if the writer accepts no bytes
/// - `Other` after `u64::MAX` writes
///
/// A prefix of the line has then been written. After an error neither `write` nor `flush` is called again.
pub fn write_line<W: Write>(writer: &mut W, line: &[u8]) -> io::Result<()>
    ensures whole { OnOk result (Appends (W.contents writer.old) (W.contents writer.new) line.now) }
    ensures prefix { OnErr result
        (AppendsPrefix (W.contents writer.old) (W.contents writer.new) line.now) }
{
    let mut written = 0;
    for _ in 0..u64::MAX {
        if written == line.len() {
            return writer.flush();
        }
        match writer.write(&line[written..]) {
            Ok(0) => return Err(io::Error::from(ErrorKind::WriteZero)),
            Ok(count) => written += count,
            Err(error) => {
                if error.kind() != ErrorKind::Interrupted {
                    return Err(error);
                }
            }
        }
    }
    Err(io::Error::from(ErrorKind::Other))
}
