// Numbers in slices of bytes, lowest byte first. Any place is allowed: past the end of a slice bytes are read as 0, and bytes
// written there are dropped.
#![tactic(auto)]

ghost use Rattle.std.specs.Prelude.{◌≡◌, ℕ, ◌+◌, ◌<◌, ◌≤◌, slice_index, length};
ghost use Rattle.std.proofs.lemmas.List.Edits.{sets};
ghost use Rattle.little_endian.specs.Bytes.{to_le, le_at, numbers as numbers_of, numbers_at};

// The byte at `at`.
pub fn read8(s: &[u8], at: usize) -> u8
    ensures { result ≡ le_at 1 s.now at }
{
    s.get(at).copied().unwrap_or(0)
}

// The 16-bit number at `at`.
pub fn read16(s: &[u8], at: usize) -> u16
    ensures { result ≡ le_at 2 s.now at }
{
    u16::from_le_bytes(bytes_at(s, at))
}

// The 32-bit number at `at`.
pub fn read32(s: &[u8], at: usize) -> u32
    ensures { result ≡ le_at 4 s.now at }
{
    u32::from_le_bytes(bytes_at(s, at))
}

// The 64-bit number at `at`.
pub fn read64(s: &[u8], at: usize) -> u64
    ensures { result ≡ le_at 8 s.now at }
{
    u64::from_le_bytes(bytes_at(s, at))
}

// The N bytes from `at` on.
fn bytes_at<const N: usize>(s: &[u8], at: usize) -> [u8; N]
    ensures { (k : ℕ) → k < N → slice_index result k ≡ slice_index s.now (at + k) }
{
    let mut bytes = [0; N];
    for (k, byte) in bytes.iter_mut().enumerate() {
        *byte = read8(s, at.saturating_add(k));
    }
    bytes
}

// Writes the byte `x` at `at`.
pub fn write8(out: &mut [u8], at: usize, x: u8)
    ensures { out.new ≡ sets out.old at (to_le 1 x) }
{
    put(out, at, &[x]);
}

// Writes the 16-bit number `x` at `at`.
pub fn write16(out: &mut [u8], at: usize, x: u16)
    ensures { out.new ≡ sets out.old at (to_le 2 x) }
{
    put(out, at, &u16::to_le_bytes(x));
}

// Writes the 32-bit number `x` at `at`.
pub fn write32(out: &mut [u8], at: usize, x: u32)
    ensures { out.new ≡ sets out.old at (to_le 4 x) }
{
    put(out, at, &u32::to_le_bytes(x));
}

// Writes the 64-bit number `x` at `at`.
pub fn write64(out: &mut [u8], at: usize, x: u64)
    ensures { out.new ≡ sets out.old at (to_le 8 x) }
{
    put(out, at, &u64::to_le_bytes(x));
}

// Writes `bytes` from `at` on. Where all have room the loop is over all, whose number the compiler knows for a number's bytes: it
// makes one store of them (4 times as quick as byte by byte, for 32 bits).
pub fn put(out: &mut [u8], at: usize, bytes: &[u8])
    ensures { out.new ≡ sets out.old at bytes.now }
{
    if at < out.len() {
        let room = out.len() - at;
        if bytes.len() <= room {
            store(out, at, bytes);
        } else {
            store(out, at, &bytes[..room]);
        }
    }
}

// Writes `bytes` from `at` on, where they have room. By a loop: with `copy_from_slice` a library that stands on this one wants
// `memmove` of the C library, and the project's wants `memcpy` and `memset` at most.
fn store(out: &mut [u8], at: usize, bytes: &[u8])
    requires { at + length bytes.now ≤ length out.old }
    ensures { out.new ≡ sets out.old at bytes.now }
{
    for (k, byte) in bytes.iter().enumerate() {
        out[at + k] = *byte;
    }
}

// Reads 64-bit numbers, one after another from `at` on, into all of `numbers`.
pub fn read_numbers(s: &[u8], at: usize, numbers: &mut [u64])
    ensures { numbers.new ≡ numbers_at (length numbers.old) s.now at }
{
    let mut place = at;
    for number in numbers.iter_mut() {
        *number = read64(s, place);
        place = place.saturating_add(8);
    }
}

// Writes 64-bit numbers, one after another from `at` on.
pub fn write_numbers(out: &mut [u8], at: usize, numbers: &[u64])
    ensures { out.new ≡ sets out.old at (numbers_of numbers.now) }
{
    let mut place = at;
    for number in numbers {
        write64(out, place, *number);
        place = place.saturating_add(8);
    }
}
