// Replays many scripts, one after another, and marks where the output of each ends.
#![tactic(auto)]

ghost use Rattle.std.specs.Prelude.{◌<◌, length, IfSome};

use script::line::first_line;
use session::replay::replay_script;
use std::io::{BufWriter, Read, Write};
use std::str;

// The first script of an input, and what comes after it: each script follows a line with its length in bytes.
fn next_script(rest: &[u8]) -> Option<(&[u8], &[u8])>
    ensures shorter { IfSome result (λ r. length r.1.now < length rest.now) }
{
    let (count, after) = first_line(rest)?;
    let count = str::from_utf8(count).ok()?.parse().ok()?;
    after.split_at_checked(count)
}

fn main(rt: HostRuntime) -> anyhow::Result<()> {
    let mut input = Vec::new(rt.alloc());
    rt.reader().read_to_end(&mut input)?;
    let mut output = BufWriter::new(rt.alloc(), rt.stdout())?;
    let mut rest = input.as_slice();
    while let Some((script, after)) = next_script(rest) {
        replay_script(script, &mut output)?;
        output.write_all(b"--\n")?;
        rest = after;
    }
    output.flush()?;
    if !rest.is_empty() {
        anyhow::bail!("a script is shorter than its count, or has none");
    }
    Ok(())
}
