// Text into a lent buffer. A put writes while its position is inside the buffer and always moves on, so the same calls on an empty buffer
// measure what they write into a long one.
ghost use Rattle.std.specs.Prelude.{◌≡◌, [], ◌∷◌, ◌<◌};
ghost use Rattle.text.specs.Buffer.{buffer};
ghost use Rattle.text.specs.Decimal.{decimal, field};
ghost use Rattle.text.specs.Hex.{hex_digit, hex_byte, hex_bytes};
ghost use Rattle.text.specs.Writer.{buffer_of, Puts};

// The caller's buffer, and the position of the next byte.
#[derive(Drop)]
pub struct Writer<'a> {
    out: &'a mut [u8],
    at: usize,
}

impl<'a> Writer<'a> {
    // At the start of a buffer.
    pub fn new(out: &'a mut [u8]) -> Writer<'a>
        ensures same_reference { result.out.ghost_name ≡ out.entry.ghost_name }
        ensures starts { buffer_of result ≡ buffer out.old 0 }
    {
        Writer { out, at: 0 }
    }

    // At the position `at` of a buffer, which may be past its end.
    pub fn starting_at(out: &'a mut [u8], at: usize) -> Writer<'a>
        ensures same_reference { result.out.ghost_name ≡ out.entry.ghost_name }
        ensures starts { buffer_of result ≡ buffer out.old at }
    {
        Writer { out, at }
    }

    // The position of the next byte: how long the text is, from a start at 0.
    pub fn position(&self) -> usize
        ensures { result ≡ (buffer_of self.now).at }
    {
        self.at
    }

    // One byte.
    pub fn put(&mut self, byte: u8)
        ensures { Puts self.old self.new (byte ∷ []) }
    {
        let at = self.at;
        if at < self.out.len() {
            self.out[at] = byte;
            self.at = at + 1;
        } else {
            self.at = at.saturating_add(1);
        }
    }

    // The bytes of `text`. A loop goes through a writer of its own, whose position stays in a register: behind `self` each byte that is stored
    // might be a byte of the position.
    pub fn put_bytes(&mut self, text: &[u8])
        ensures { Puts self.old self.new text.now }
    {
        let mut here = Writer {
            out: self.out,
            at: self.at,
        };
        for byte in text {
            here.put(*byte);
        }
        self.at = here.at;
    }

    // The decimal digits of `n`.
    pub fn put_decimal(&mut self, n: u64)
        ensures { Puts self.old self.new (decimal n) }
    {
        if 10 <= n {
            self.put_decimal(n / 10);
        }
        self.put(b'0' + (n % 10) as u8);
    }

    // The bytes `before`, then a number.
    pub fn put_field(&mut self, before: &[u8], number: u64)
        ensures { Puts self.old self.new (field before.now number) }
    {
        self.put_bytes(before);
        self.put_decimal(number);
    }

    // The two hexadecimal digits of `byte`, in lower case.
    pub fn put_hex(&mut self, byte: u8)
        ensures { Puts self.old self.new (hex_byte byte) }
    {
        self.put(hex_digit(byte / 16));
        self.put(hex_digit(byte % 16));
    }

    // The hexadecimal digits of `bytes`, two each, in lower case.
    pub fn put_hex_bytes(&mut self, bytes: &[u8])
        ensures { Puts self.old self.new (hex_bytes bytes.now) }
    {
        let mut here = Writer {
            out: self.out,
            at: self.at,
        };
        for byte in bytes {
            here.put_hex(*byte);
        }
        self.at = here.at;
    }
}

// The character of the hexadecimal digit `d`.
#[tactic(auto, unfolding(crate::specs::Hex::hex_digit))]
fn hex_digit(d: u8) -> u8
    requires { d < 16 }
    ensures { result ≡ hex_digit d }
{
    if d < 10 { b'0' + d } else { b'a' + d - 10 }
}
