// Replays a script from standard input to standard output.
#![tactic(auto)]

use session::stream::replay;
use std::env;

fn main(rt: HostRuntime) -> anyhow::Result<()> {
    if env::args(&rt)?.count() > 1 {
        anyhow::bail!(
            "it takes no argument: give the script on standard input, as ./replay < script"
        );
    }
    replay(&mut rt.reader(), &mut rt.stdout())?;
    Ok(())
}
