// Replays the log of arrivals on standard input (document 02, 2026-11): thin over the crate `replay`, one line at a time.
#![tactic(auto)]

use inventory::Inventory;
use refusals::MAX_LISTED_LENGTH;
use replay::Writer;
use std::io::{self, Write};

// Room for the longest line, of 254 numbers (crate replay, specs/Claim, `LinesFit`).
const LINE_ROOM: usize = 1024;

fn main(rt: HostRuntime) -> io::Result<()> {
    // one byte more than the longest log, so that a longer one is seen
    let mut bytes = [0u8; MAX_LISTED_LENGTH + 1];
    let length = input::read_full(&mut rt.stdin(), &mut bytes)?;
    replay_log(&bytes[..length], &mut rt.stdout())
}

// Prints the lines of a replay, one after another (crate replay, specs/Claim, `LinesJoined`).
fn replay_log(log: &[u8], out: &mut impl Write) -> io::Result<()> {
    match replay::open(log) {
        Ok(replay) => {
            for event in replay {
                print(out, event)?;
            }
            Ok(())
        }
        Err(number) => print(out, Err(number)),
    }
}

// Prints the line after an event, or the refusal of a first line.
fn print(out: &mut impl Write, event: Result<Inventory, u32>) -> io::Result<()> {
    let mut line = [0u8; LINE_ROOM];
    let mut writer = Writer::new(&mut line);
    replay::put_line(&mut writer, event);
    let end = writer.position();
    if end <= LINE_ROOM {
        out.write_all(&line[..end])?;
    }
    Ok(())
}
