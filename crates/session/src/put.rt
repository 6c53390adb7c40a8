ghost use Rattle.session.specs.Writing.{Wrote};

use std::io::{self, ErrorKind, Write};

// Writes bytes to the end: by `write` alone, which says what an error leaves.
pub(crate) fn put<W: Write>(writer: &mut W, bytes: &[u8]) -> io::Result<()>
    ensures { Wrote result (W.contents writer.old) (W.contents writer.new) bytes.now }
{
    let mut at = 0;
    while at < bytes.len() {
        let count = writer.write(&bytes[at..])?;
        if count == 0 {
            return Err(io::Error::from(ErrorKind::WriteZero));
        }
        at += count;
    }
    Ok(())
}
