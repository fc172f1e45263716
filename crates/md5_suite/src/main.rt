// RFC 1321's own test suite (A.5), through the library: a line a message, as the RFC prints them.
#![tactic(auto)]

use std::io::{self, Write};
use text::Writer;

fn main(rt: HostRuntime) -> io::Result<()> {
    let mut out = rt.stdout();
    out.write_all(b"MD5 test suite:\n")?;
    show(&mut out, b"")?;
    show(&mut out, b"a")?;
    show(&mut out, b"abc")?;
    show(&mut out, b"message digest")?;
    show(&mut out, b"abcdefghijklmnopqrstuvwxyz")?;
    show(
        &mut out,
        b"ABCDEFGHIJKLMNOPQRSTUVWXYZabcdefghijklmnopqrstuvwxyz0123456789",
    )?;
    show(
        &mut out,
        b"12345678901234567890123456789012345678901234567890123456789012345678901234567890",
    )
}

// Writes the message's line, which is cut at 160 bytes.
fn show(out: &mut impl Write, message: &[u8]) -> io::Result<()> {
    let mut line = [0u8; 160];
    let mut writer = Writer::new(&mut line);
    writer.put_bytes(b"MD5 (\"");
    writer.put_bytes(message);
    writer.put_bytes(b"\") = ");
    writer.put_hex_bytes(&md5_digest::digest(message));
    writer.put(b'\n');
    let end = writer.position();
    if end <= 160 {
        out.write_all(&line[..end])?;
    }
    Ok(())
}
