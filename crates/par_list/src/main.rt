// Lists the index file or volume on standard input (document 01, "What comes back"): thin over the crate `listing`.
#![tactic(auto)]

use refusals::MAX_LISTED_LENGTH;
use std::io::{self, Write};

fn main(rt: HostRuntime) -> io::Result<()> {
    // one byte more than the longest input, so that a longer one is seen
    let mut bytes = [0u8; MAX_LISTED_LENGTH + 1];
    let length = input::read_full(&mut rt.stdin(), &mut bytes)?;
    // a listing is shorter than its file, so this room always holds it (crate listing, specs/Claim, `InputFits`)
    let mut lines = [0u8; MAX_LISTED_LENGTH];
    let Ok(end) = listing::list_input(&bytes[..length], &mut lines) else {
        return Ok(());
    };
    if end <= MAX_LISTED_LENGTH {
        rt.stdout().write_all(&lines[..end])?;
    }
    Ok(())
}
