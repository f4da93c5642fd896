// Text as bytes: an input, parts between separators, numbers read and written, and a buffer to write on. Nothing here refuses: what does not fit on the buffer is left out.
#![tactic(auto)]

ghost use Rattle.std.specs.Prelude.{◌≡◌, ◌<◌, ◌^◌, ◌==◌, [], ◌∷◌, length, drop, get_or};
ghost use Rattle.text.specs.Number.{number_in, number_of, digits_of};
ghost use Rattle.text.specs.Pair.{pair_in};

mod input;

pub use input::{TOO_LONG, read_full};

// The lines that are left of some bytes. A type of its own around std's adapter: contracts say of it which lines are left, and a closure's type, which
// the adapter holds, has no name that they could say.
#[derive(Clone, Copy)]
pub struct Lines<'a> {
    rest: &'a [u8],

    // As long as a slice can be, so the lines can be counted.
    ghost short: { length rest.now < 2 ^ 63 },
}

impl<'a> Lines<'a> {
    ghost use Rattle.text.specs.Parts.{lines_of};
    ghost use Rattle.text.specs.Lines.{lines_left};

    pub fn new(bytes: &'a [u8]) -> Self
        ensures { lines_left result ≡ lines_of bytes.now }
    {
        Lines { rest: bytes }
    }

    // The next line, and an empty one where none is left: for callers a line that is missing is as bad as an empty one.
    pub fn next_or_empty(&mut self) -> &'a [u8]
        ensures { (result.now ≡ get_or (lines_left self.old) 0 []) × (lines_left self.new ≡ drop 1 (lines_left self.old)) }
    {
        self.next().unwrap_or(b"")
    }
}

impl<'a> Iterator for Lines<'a> {
    type Item = &'a [u8];

    ghost use Rattle.std.specs.Iterator.{YieldsFirstRef, item_count};
    ghost use Rattle.text.specs.Lines.{lines_left};

    ghost next_gives = { YieldsFirstRef lines_left };

    ghost remaining = { item_count lines_left };

    fn next(&mut self) -> Option<&'a [u8]> {
        let line = self.rest.split_inclusive(|byte| *byte == b'\n').next()?;
        self.rest = &self.rest[line.len()..];
        Some(line.strip_suffix(b"\n").unwrap_or(line))
    }
}

// A number of 64 bits in plain decimal digits. Not std's `parse`, which takes a `+` in front.
pub fn read_u64(field: &[u8]) -> Option<u64>
    ensures { result ≡ number_in 64 field.now }
{
    if field.is_empty() {
        return None;
    }
    let mut number: u64 = 0;
    for byte in field {
        let b'0'..=b'9' = *byte else {
            return None;
        };
        number = number
            .checked_mul(10)?
            .checked_add(u64::from(*byte - b'0'))?;
    }
    Some(number)
}

// The same of 32 bits.
pub fn read_number(field: &[u8]) -> Option<u32>
    ensures { result ≡ number_of field.now }
{
    let number = read_u64(field)?;
    u32::try_from(number).ok()
}

// A line of two numbers of 64 bits.
pub fn read_pair(line: &[u8]) -> Option<(u64, u64)>
    ensures { result ≡ pair_in 64 line.now }
{
    let mut fields = line.split(|byte| *byte == b' ');
    let first = read_u64(fields.next()?)?;
    let second = read_u64(fields.next()?)?;
    fields.next().is_none().then_some((first, second))
}

// A buffer to write text on. The text is written from the position on, and what does not fit is left out, where a writer of std's fails.
#[derive(Drop)]
pub struct Writer<'a> {
    pub buffer: &'a mut [u8],
    pub position: usize,
}

impl<'a> Writer<'a> {
    ghost use Rattle.text.specs.Bytes.{Wrote};

    // Not `put_bytes(&[byte])`, which copies by a call: nearbook then takes a fifth more instructions for a line of a list (docs/SPEED.md).
    pub fn put_byte(&mut self, byte: u8)
        ensures { Wrote self.old (byte ∷ []) self.new }
    {
        if self.position < self.buffer.len() {
            self.buffer[self.position] = byte;
            self.position += 1;
        } else {
            self.position = self.buffer.len();
        }
    }

    pub fn put_bytes(&mut self, bytes: &[u8])
        ensures { Wrote self.old bytes.now self.new }
    {
        let start = self.position.min(self.buffer.len());
        let size = bytes.len().min(self.buffer.len() - start);
        self.buffer[start..start + size].copy_from_slice(&bytes[..size]);
        self.position = start + size;
    }

    // Writes the decimal digits of a number.
    pub fn put_number(&mut self, number: u64)
        ensures { Wrote self.old (digits_of number) self.new }
    {
        let mut digits = itoa::Buffer::new();
        self.put_bytes(digits.format(number).as_bytes());
    }
}
