// Scripts from a reader to a writer.
ghost use Rattle.std.specs.Prelude.{◌≡◌, ◌≤◌, length, take, IfOk, IfSome};
ghost use Rattle.session.specs.Printed.{printed};
ghost use Rattle.session.specs.Scripts.{ScriptLaws};
ghost use Rattle.session.specs.Writing.{Wrote};

use crate::replay::{LONGEST_INPUT, replay_script};
use std::io::{self, Read, Write};

// Reads into a buffer till it is full or nothing is left; how many bytes came.
fn fill<R: Read>(reader: &mut R, buffer: &mut [u8]) -> io::Result<usize>
    ensures within { IfOk result (λ n. n ≤ length buffer.new) }
    ensures read { IfOk result (λ n. IfSome (R.remaining reader.old) (λ xs. take n buffer.new ≡ take (length buffer.new) xs)) }
{
    let mut at = 0;
    while at < buffer.len() {
        let count = reader.read(&mut buffer[at..])?;
        if count == 0 {
            return Ok(at);
        }
        at += count;
    }
    Ok(at)
}

/// Replays the script that a reader has: what is appended to the writer is what is printed for the bytes that the reader had
/// left. It reads at most 65,537 of them, and writes each line of output before it serves the next. After an error a front part
/// of that was written.
pub fn replay<R: Read, W: Write>(reader: &mut R, writer: &mut W) -> io::Result<()>
    ensures printed { IfSome (R.remaining reader.old) (λ input. Wrote result (W.contents writer.old) (W.contents writer.new) (printed input)) }
    ensures laws { ScriptLaws }
{
    let mut buffer = [0; LONGEST_INPUT + 1];
    let count = fill(reader, &mut buffer)?;
    replay_script(&buffer[..count], writer)
}
