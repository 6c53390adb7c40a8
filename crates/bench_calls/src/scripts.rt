// Scripts replayed into lent memory.
ghost use Rattle.std.specs.Prelude.{◌≡◌, ◌⊎◌, Some, take};
ghost use Rattle.session.specs.Printed.{printed};

use session::replay::replay_script;
use std::io::{self, Write};

// How many bytes are kept of what is printed.
const LONGEST_OUTPUT: usize = 1 << 20;

// What is printed, from the front on; it takes no more where it is full.
#[derive(Drop)]
struct Sheet {
    bytes: [u8; LONGEST_OUTPUT],
    length: usize,
}

impl Write for Sheet {
    ghost contents = { λ s. Some (take s.length s.bytes) };

    fn write(&mut self, buf: &[u8]) -> io::Result<usize> {
        let from = self.length.min(LONGEST_OUTPUT);
        let count = buf.len().min(LONGEST_OUTPUT - from);
        self.bytes[from..from + count].copy_from_slice(&buf[..count]);
        self.length = from + count;
        Ok(count)
    }

    fn flush(&mut self) -> io::Result<()> {
        Ok(())
    }
}

impl Sheet {
    // What was printed.
    fn printed(&self) -> &[u8]
        ensures { result.now ≡ take self.now.length self.now.bytes }
    {
        &self.bytes[..self.length.min(LONGEST_OUTPUT)]
    }
}

// Puts bytes to the front of the room; how many, or `usize::MAX` where they do not fit.
fn put(bytes: &[u8], room: &mut [u8]) -> usize
    ensures { (result ≡ usize.MAX) ⊎ (take result room.new ≡ bytes.now) }
{
    let length = bytes.len();
    if length > room.len() {
        return usize::MAX;
    }
    room[..length].copy_from_slice(bytes);
    length
}

// Replays a script; the length of what was printed, or `usize::MAX`, as where it did not fit.
pub(crate) fn replay(script: &[u8], out: &mut [u8]) -> usize
    ensures { (result ≡ usize.MAX) ⊎ (take result out.new ≡ printed script.now) }
{
    let mut sheet = Sheet {
        bytes: [0; LONGEST_OUTPUT],
        length: 0,
    };
    match replay_script(script, &mut sheet) {
        Ok(()) => put(sheet.printed(), out),
        Err(_) => usize::MAX,
    }
}
